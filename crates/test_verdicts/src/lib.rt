//! What command lines over bytes can't show of movies and their verdicts: devices that fail, workers and
//! their gates, progress, and functions that no command shows. What they can show is in `test_commands`.
//! They stand apart, since most of them go through several crates: what reads a movie, what replays it,
//! and what answers.
#![tactic(auto)]

#[cfg(test)]
mod answer;
#[cfg(test)]
mod beyond_commands;
#[cfg(test)]
mod desk;
#[cfg(test)]
mod devices;
#[cfg(test)]
mod expectation;
#[cfg(test)]
mod expected_roms;
#[cfg(test)]
mod frames;
#[cfg(test)]
mod gates;
#[cfg(test)]
mod make;
#[cfg(test)]
mod movies;
#[cfg(test)]
mod pixmaps;
#[cfg(test)]
mod progress;
#[cfg(test)]
mod segments;
#[cfg(test)]
mod some_frames;
#[cfg(test)]
mod stages;
#[cfg(test)]
mod trace;
#[cfg(test)]
mod verdicts;
#[cfg(test)]
mod verify;
#[cfg(test)]
mod workers;
