// The calls for C and Rust, libcoinhamper.a: each is coinhamper's under its name, with its promises. A call answers its refusal, 0 for none, unless it says that it answers a number; where it is refused, nothing that was lent is changed.
#![tactic(auto)]

ghost use Rattle.std.specs.Prelude.{◌≡◌};
ghost use Rattle.state_words.specs.StateWords.{version};

pub mod arithmetic;
pub mod governed;
pub mod logged;
pub mod merges;

// Answers a number.
#[unsafe(no_mangle)]
pub extern "C" fn coinhamper_version() -> u64
    ensures { result ≡ version }
{
    coinhamper::coinhamper_version()
}

// How many words a caller lends for a governor.
#[unsafe(no_mangle)]
pub extern "C" fn coinhamper_state_words() -> usize
    ensures { result ≡ 28 }
{
    coinhamper::coinhamper_state_words()
}
