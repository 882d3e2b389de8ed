//! Subcommands in a static library, for programs in other languages: `include/mtpbank.h` declares it.
//!
//! Its one function is a call of [`text_calls`](text_calls::tell), with its contract, and answers 0 where the call was
//! done, else the number of its refusal. What stays with the caller: that each pointer is to what its type says, that none
//! is null and no two overlap.
#![tactic(auto)]

ghost use Rattle.std.specs.Prelude.{◌≡◌, Result};
ghost use Rattle.mtpbank_texts.specs.Codes.{code_of};
ghost use Rattle.text_calls.specs.Numbers.{words_of_number};
ghost use Rattle.text_calls.specs.Telling.{Tells};
ghost use Rattle.text_calls.specs.declared.telling.TextRefusal.{TextRefusal as Refusal};

use std::alloc::Global;
use text_calls::{TextLengths, TextRefusal, tell};

/// What the subcommand of this number makes of an input ([`tell`]).
#[unsafe(no_mangle)]
pub extern "C" fn mtpbank_text(
    alloc: Global,
    number: u8,
    input: &[u8],
    printed: &mut [u8],
    told: &mut [u8],
    lengths: &mut TextLengths,
) -> i32
    ensures { (ended : Result (Unit {0}) Refusal)
        × Tells (words_of_number number) input.now printed.old told.old lengths.old ended printed.new told.new lengths.new
        × (result ≡ code_of ended) }
{
    code_of(tell(alloc, number, input, printed, told, lengths))
}

/// 0 where it was done, else the number of its refusal.
fn code_of(ended: Result<(), TextRefusal>) -> i32
    ensures { result ≡ code_of ended }
{
    match ended {
        Ok(()) => 0,
        Err(refusal) => i32::from(refusal.number()),
    }
}
