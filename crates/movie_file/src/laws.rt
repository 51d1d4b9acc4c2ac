//! Laws about the definitions.
ghost use Rattle.std.specs.Prelude.{◌≡◌, ◌+◌, ◌<◌, ◌≤◌, List, ℕ, length, Ok, Some, get_or};
ghost use Rattle.std.specs.Prelude.{slice_get};
ghost use Rattle.movie_file.specs.Conversion.{in_version_2};
ghost use Rattle.movie_file.specs.InputLists.{SpellsInputs, all_inputs_at};
ghost use Rattle.movie_file.specs.Judgement.{IsSound, FaultsAt, IsFalseAt, IsGenuine};
ghost use Rattle.movie_file.specs.Making.{IsFirstFault, IsMadeOf};
ghost use Rattle.movie_file.specs.Movie.{MovieData, IsMovie, IsState, IsStateOf};
ghost use Rattle.movie_file.specs.Reading.{movie_at};
ghost use Rattle.movie_file.specs.Record.{record_of, recorded_state};
ghost use Rattle.movie_file.specs.Run.{run};
ghost use Rattle.movie_file.specs.Spelling.{Spells};
ghost use Rattle.movie_file.specs.declared.checkpoint.Checkpoint.{Checkpoint};
ghost use Rattle.vcs_machine.specs.Inputs.{InputData};
ghost use Rattle.vcs_machine.specs.declared.fault.FaultKind.{FaultKind};
ghost use Rattle.movie_machine.specs.Carts.{rules_of};
ghost use Rattle.movie_machine.specs.declared.cart.Cart.{Cart};
ghost use Rattle.movie_machine.specs.declared.rules.Rules.TheVariants.{Guide as ByGuide};
ghost use Rattle.movie_machine.specs.declared.state.State.{State};
ghost use Rattle.vcs_machine.specs.declared.fields.StateFields.{StateFields};

/// A law: no movie has two spellings.
pub const fn law_of_one_spelling()
    ensures { (a b : List ℕ) (m : MovieData) → Spells a m → Spells b m → a ≡ b }
{}

/// A law: no spelling has two movies.
pub const fn law_of_one_movie()
    ensures { (bytes : List ℕ) (m n : MovieData) → Spells bytes m → Spells bytes n → m ≡ n }
{}

/// A law: reading with the first refusal finds exactly the movie that bytes spell.
pub const fn law_of_reading()
    ensures found { (bytes : List ℕ) (m : MovieData) → Spells bytes m → movie_at bytes ≡ Ok m }
    ensures spelled { (bytes : List ℕ) (m : MovieData) → ((i : ℕ) → get_or bytes i 0 < 256)
        → movie_at bytes ≡ Ok m → Spells bytes m }
{}

/// A law: reading inputs with the first refusal finds exactly the inputs that bytes spell.
pub const fn law_of_inputs()
    ensures found { (bytes : List ℕ) (inputs : List InputData) → SpellsInputs bytes inputs
        → all_inputs_at bytes ≡ Ok inputs }
    ensures spelled { (bytes : List ℕ) (inputs : List InputData)
        → ((i : ℕ) → get_or bytes i 0 < 256)
        → all_inputs_at bytes ≡ Ok inputs → SpellsInputs bytes inputs }
{}

/// A law: of a cartridge and inputs one movie can be made at most, their run has one first fault at
/// most, and not both are there.
pub const fn law_of_making()
    ensures one_movie { (cartridge : Cart) (inputs : List InputData) (every : ℕ) (m n : MovieData)
        → IsMadeOf cartridge inputs every m → IsMadeOf cartridge inputs every n → m ≡ n }
    ensures one_fault { (cartridge : Cart) (inputs : List InputData) (frame other : ℕ)
        (kind other_kind : FaultKind) → IsFirstFault cartridge inputs frame kind
        → IsFirstFault cartridge inputs other other_kind → (frame ≡ other) × (kind ≡ other_kind) }
    ensures not_both { (cartridge : Cart) (inputs : List InputData) (every frame : ℕ)
        (kind : FaultKind) (m : MovieData) → IsMadeOf cartridge inputs every m → IsGenuine m
        → IsFirstFault cartridge inputs frame kind → ⊥ }
{}

/// A law: the record of a state is read as that state, and bytes that are read as a state are its
/// record.
pub const fn law_of_records()
    ensures found { (f : StateFields) → IsState f → recorded_state (record_of f) ≡ Some f }
    ensures written { (bytes : List ℕ) (f : StateFields) → ((i : ℕ) → get_or bytes i 0 < 256)
        → recorded_state bytes ≡ Some f → IsState f × (bytes ≡ record_of f) }
{}

/// A law: checkpoints stand after frames of their movie, each after the one before it, and claim
/// states of a console with its cartridge.
pub const fn law_of_checkpoints()
    ensures range { (m : MovieData) (j : ℕ) (c : Checkpoint) → IsMovie m
        → slice_get m.checkpoints j ≡ Some c
        → (0 < c.frame) × (c.frame ≤ length m.inputs) × IsStateOf m.cartridge c.state }
    ensures rising { (m : MovieData) (i j : ℕ) (c d : Checkpoint) → IsMovie m → i < j
        → slice_get m.checkpoints i ≡ Some c → slice_get m.checkpoints j ≡ Some d
        → c.frame < d.frame }
{}

/// A law: a run goes on, from where it stands, as a run from there.
pub const fn law_of_runs()
    ensures { (m : MovieData) (s t : State) (from i j : ℕ) → run m s from i ≡ Some t
        → run m s from (i + j) ≡ run m t (from + i) j }
{}

/// A law: a frame of a run that is sound has no fault and no false checkpoint, one with a false
/// checkpoint has no fault, and none has two faults or two false checkpoints.
pub const fn law_of_judgements()
    ensures no_fault { (m : MovieData) (s : State) (from k : ℕ) (kind : FaultKind)
        → IsSound m s from k → FaultsAt m s from k kind → ⊥ }
    ensures no_false { (m : MovieData) (s : State) (from k number : ℕ)
        → IsSound m s from k → IsFalseAt m s from k number → ⊥ }
    ensures not_both { (m : MovieData) (s : State) (from k number : ℕ) (kind : FaultKind)
        → IsFalseAt m s from k number → FaultsAt m s from k kind → ⊥ }
    ensures one_fault { (m : MovieData) (s : State) (from k : ℕ) (kind other : FaultKind)
        → FaultsAt m s from k kind → FaultsAt m s from k other → kind ≡ other }
    ensures one_false { (m : MovieData) (s : State) (from k number other : ℕ) → IsMovie m
        → IsFalseAt m s from k number → IsFalseAt m s from k other → number ≡ other }
{}

/// A law: a movie by the guide's rules is a movie in version 2, too, whose run is that of the movie.
pub const fn law_of_conversion()
    ensures lawful { (m : MovieData) → IsMovie m → rules_of m.cartridge ≡ ByGuide → IsMovie (in_version_2 m) }
    ensures run { (m : MovieData) (s : State) (from k : ℕ)
        → run (in_version_2 m) s from k ≡ run m s from k }
{}
