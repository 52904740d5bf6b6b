// The calls for C and Rust, as numbers and lent slices; coinhamper_c hands them out in libcoinhamper.a. A call answers its refusal, 0 for none, unless it says that it answers a number; where it is refused, nothing that was lent is changed.
#![tactic(auto)]

ghost use Rattle.std.specs.Prelude.{◌≡◌};
ghost use Rattle.state_words.specs.StateWords.{version};

pub mod arithmetic;
pub mod governed;
pub mod logged;
pub mod merges;

// Answers a number.
#[unsafe(no_mangle)]
pub extern "C" fn coinhamper_version() -> u64
    ensures { result ≡ version }
{
    state_words::VERSION
}

// How many words a caller lends for a governor.
#[unsafe(no_mangle)]
pub extern "C" fn coinhamper_state_words() -> usize
    ensures { result ≡ 28 }
{
    state_words::STATE_WORDS
}
