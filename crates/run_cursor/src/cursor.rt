//! Cursors, which go through the run of a movie frame by frame.
ghost use Rattle.std.specs.Prelude.{◌≡◌, ◌≤◌, ◌<◌, ◌+◌, ◌-◌, ◌⊎◌, true, if◌then◌else◌, length, slice_get};
ghost use Rattle.std.specs.Prelude.{Some, None, IsTrue, IfOk, IfErr, OnOk, OnErr};
ghost use Rattle.movie_file.specs.Judgement.{FaultsAt};
ghost use Rattle.movie_file.specs.Movie.{IsMovie};
ghost use Rattle.movie_file.specs.Run.{run};
ghost use Rattle.movie_machine.specs.Carts.{ram_length};
ghost use Rattle.movie_machine.specs.Outcomes.{Played, frame_of};
ghost use Rattle.movie_machine.specs.States.{is_of};
ghost use Rattle.run_cursor.specs.RunFaults.{FaultsWithin, FrameFails, RunFails};
ghost use Rattle.vcs_machine.specs.Inputs.{InputData};
ghost use Rattle.vcs_machine.specs.Pictures.{Rows};

use movie_file::{Movie, Progress, Work};
use movie_machine::{State, TimedFrame, frame as play, halt};
use refused::Refused;
use std::alloc::{AllocError, Global};
use std::marker::Model;
use vcs_machine::FaultKind;

/// The first fault of a run.
#[derive(Clone, Copy)]
pub struct RunFault {
    /// The frame, counted from 1, that faults.
    pub frame: u32,
    pub kind: FaultKind,
}

/// A place in the one unbroken run of a movie, right by its type: the state is the one that the run
/// has after the frame.
#[derive(Drop)]
pub struct Cursor<'a> {
    movie: &'a Movie,
    frame: u32,
    state: State,
}

impl<'a> Model for Cursor<'a> {
    ghost use Rattle.run_cursor.specs.Cursor.{CursorData, IsAt};

    ghost Value = { CursorData };

    ghost view = { λ c. record { movie = c.movie.now; frame = c.frame; state = c.state } };

    ghost invariant = { λ c. IsAt c.movie.now c.frame (record { movie = c.movie.now; frame = c.frame; state = c.state }) };
}

impl<'a> Cursor<'a> {
    ghost use Rattle.run_cursor.specs.Cursor.{IsAt};

    /// Before the first frame.
    ///
    /// AllocError comes only if memory for the RAM of the cartridge was refused.
    pub fn at_start(alloc: Global, movie: &'a Movie) -> Result<Cursor<'a>, AllocError>
        ensures at { IfOk result (IsAt movie.now 0) }
        ensures memory { OnErr result (0 < ram_length movie.now.cartridge) }
    {
        let _ = movie.frames();
        let state = movie.start().copy(alloc)?;
        Ok(Cursor {
            movie,
            frame: 0,
            state,
        })
    }

    /// After a frame of which this is known to be the run's state, as a true checkpoint claims it.
    ///
    /// AllocError comes only if memory for the RAM of the cartridge was refused.
    pub fn at_claim(
        alloc: Global,
        movie: &'a Movie,
        frame: u32,
        state: &State,
    ) -> Result<Cursor<'a>, AllocError>
        requires within { frame ≤ length movie.now.inputs }
        requires ran { run movie.now movie.now.start 0 frame ≡ Some state.now }
        requires cartridge { IsTrue (is_of movie.now.cartridge state.now) }
        ensures at { IfOk result (IsAt movie.now frame) }
        ensures memory { OnErr result (0 < ram_length movie.now.cartridge) }
    {
        let _ = movie.frames();
        let state = state.copy(alloc)?;
        Ok(Cursor {
            movie,
            frame,
            state,
        })
    }

    /// The movie.
    pub fn movie(&self) -> &'a Movie
        ensures value { result.now ≡ self.now.movie }
        ensures at { IsAt self.now.movie self.now.frame self.now }
    {
        self.movie
    }

    /// The number of the frame that was played last, counted from 1; 0 before the first.
    pub fn frame(&self) -> u32
        ensures value { result ≡ self.now.frame }
        ensures at { IsAt self.now.movie self.now.frame self.now }
    {
        self.frame
    }

    /// The state after that frame.
    pub fn state(&self) -> &State
        ensures value { result.now ≡ self.now.state }
        ensures at { IsAt self.now.movie self.now.frame self.now }
    {
        &self.state
    }

    /// Plays the next frame, whose picture is not kept. Memory is taken for the RAM of the cartridge
    /// alone.
    pub fn advance(&mut self, alloc: Global) -> Result<(), Refused<FaultKind>>
        requires more { self.old.frame < length self.old.movie.inputs }
        ensures ok { OnOk result (IsAt self.old.movie (self.old.frame + 1) self.new) }
        ensures err { IfErr result (FrameFails self.old.movie self.old.frame) }
        ensures memory { result ≡ Err Refused.NoMemory → 0 < ram_length self.old.movie.cartridge }
        ensures same { OnErr result (self.new ≡ self.old) }
    {
        let movie = self.movie;
        let frame = self.frame + 1;
        let Ok(mut state) = self.state.copy(alloc) else {
            return Err(Refused::NoMemory);
        };
        match halt(alloc, movie.cart(), &mut state, movie.input(frame)) {
            None => {
                self.frame = frame;
                self.state = state;
                Ok(())
            }
            Some(halt) => Err(Refused::Of(halt.kind)),
        }
    }

    /// Plays the next frame, with its picture if `keep` is true; the answer is how long it was. With
    /// `keep` false memory is taken for the RAM of the cartridge alone.
    pub fn advance_timed(
        &mut self,
        alloc: Global,
        keep: bool,
    ) -> Result<TimedFrame, Refused<FaultKind>>
        requires more { self.old.frame < length self.old.movie.inputs }
        ensures ok { OnOk result (IsAt self.old.movie (self.old.frame + 1) self.new) }
        ensures timed { IfOk result (λ timed. (input : InputData) × (rows : Rows)
            × (slice_get self.old.movie.inputs self.old.frame ≡ Some input)
            × (frame_of self.old.movie.cartridge self.old.state input ≡ Some (Played self.new.state rows timed.cycles))
            × (timed.rows ≡ length rows) × (timed.picture ≡ (if keep then Some rows else None))) }
        ensures at { IsAt self.old.movie self.old.frame self.old }
        ensures err { IfErr result (FrameFails self.old.movie self.old.frame) }
        ensures memory { result ≡ Err Refused.NoMemory → (keep ≡ true) ⊎ (0 < ram_length self.old.movie.cartridge) }
        ensures same { OnErr result (self.new ≡ self.old) }
    {
        let movie = self.movie;
        let frame = self.frame + 1;
        let Ok(mut state) = self.state.copy(alloc) else {
            return Err(Refused::NoMemory);
        };
        let timed = play(alloc, movie.cart(), &mut state, movie.input(frame), keep)?;
        self.frame = frame;
        self.state = state;
        Ok(timed)
    }

    /// Goes on to a frame, as long as none faults. If one does it stays before that. Each frame is told,
    /// as a part of a work that has begun. Memory is taken for the RAM of the cartridge alone.
    pub fn advance_to<P: Progress>(
        &mut self,
        alloc: Global,
        frame: u32,
        progress: &P,
    ) -> Result<(), Refused<RunFault>>
        requires later { self.old.frame ≤ frame }
        requires within { frame ≤ length self.old.movie.inputs }
        ensures ok { OnOk result (IsAt self.old.movie frame self.new) }
        ensures err { IfErr result (RunFails self.old.movie frame self.new) }
    {
        for before in self.frame()..frame {
            match self.advance(alloc) {
                Ok(()) => progress.advance(),
                Err(Refused::Of(kind)) => {
                    let frame = before + 1;
                    return Err(Refused::Of(RunFault { frame, kind }));
                }
                Err(Refused::NoMemory) => return Err(Refused::NoMemory),
            }
        }
        Ok(())
    }

    /// The same as a work of its own. None begins if no frame is left.
    pub fn work_to<P: Progress>(
        &mut self,
        alloc: Global,
        frame: u32,
        progress: &P,
    ) -> Result<(), Refused<RunFault>>
        requires later { self.old.frame ≤ frame }
        requires within { frame ≤ length self.old.movie.inputs }
        ensures ok { OnOk result (IsAt self.old.movie frame self.new) }
        ensures err { IfErr result (RunFails self.old.movie frame self.new) }
    {
        let left = frame - self.frame();
        if left == 0 {
            return Ok(());
        }
        progress.begin(Work::Frames(left));
        let played = self.advance_to(alloc, frame, progress);
        progress.end();
        played
    }
}
