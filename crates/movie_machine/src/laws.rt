//! Laws about the definitions.
ghost use Rattle.std.specs.Prelude.{◌≡◌, ℕ, length, IsTrue, IsSome};
ghost use Rattle.movie_machine.specs.Carts.{ram_length};
ghost use Rattle.movie_machine.specs.Outcomes.{frame_of};
ghost use Rattle.movie_machine.specs.States.{is_of, ram_of};
ghost use Rattle.movie_machine.specs.declared.cart.Cart.{Cart};
ghost use Rattle.movie_machine.specs.declared.state.State.{State};
ghost use Rattle.vcs_machine.specs.Inputs.{InputData};

/// A law: each state of a cartridge has a frame on it, and its RAM is as long as the cartridge's.
pub const fn law_of_frames()
    ensures frame { (c : Cart) (s : State) (i : InputData) → IsTrue (is_of c s) → IsSome (frame_of c s i) }
    ensures ram { (c : Cart) (s : State) → IsTrue (is_of c s) → length (ram_of s) ≡ ram_length c }
{}
