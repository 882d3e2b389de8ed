//! What a subcommand makes of octets, in two buffers.
ghost use Rattle.std.specs.Prelude.{◌≡◌, ◌≤◌, length, IfOk};
ghost use Rattle.text_calls.specs.Numbers.{refusal_number, words_of_number};
ghost use Rattle.text_calls.specs.Running.{ReadsInput};
ghost use Rattle.text_calls.specs.Telling.{IsLines, IsMade, IsPut, IsToldOfEnd, Tells};

use super::numbers::words_of_number;
use super::running::{TextFault, run};
use mtpbank_words::Words;
use std::alloc::{AllocError, Global};
use text_base::{Fault, Reader, Writer};
use thiserror::Error;

/// How long what is printed is, and what is told.
#[repr(C)]
#[derive(Clone, Copy, Debug, Drop, PartialEq, Eq)]
pub struct TextLengths {
    /// How many octets are printed.
    pub printed: usize,
    /// How many octets the lines have that tell of a fault; 0 where it ended well.
    pub told: usize,
}

/// Why a text wasn't made.
#[derive(Clone, Copy, Debug, Drop, PartialEq, Eq, Error)]
pub enum TextRefusal {
    /// 16: memory is wanted.
    #[error("out of memory")]
    NoMemory,
    /// 49: no subcommand has this number.
    #[error("there is no such subcommand")]
    NoSuchSubcommand,
    /// 50: a buffer is too small.
    #[error("there is too little room")]
    NoRoom,
}

impl TextRefusal {
    /// The refusal's number, as beside each case: that of the same fault of an end's calls.
    pub fn number(self) -> u8
        ensures { result ≡ refusal_number self }
    {
        match self {
            TextRefusal::NoMemory => 16,
            TextRefusal::NoSuchSubcommand => 49,
            TextRefusal::NoRoom => 50,
        }
    }
}

/// What is printed, and what is told of how it ended.
#[derive(Drop)]
struct Made {
    printed: Vec<u8>,
    told: Vec<u8>,
}

/// Puts what the subcommand of this number ([`words_of_number`]) prints of the input at the front of one buffer, and the
/// lines that tell of a fault at the front of another one: nothing where it ended well. The contract states that they are
/// lines, not their words.
///
/// With [`TextRefusal::NoRoom`] the lengths are those that are wanted, and the buffers as they were.
pub fn tell(
    alloc: Global,
    number: u8,
    input: &[u8],
    printed: &mut [u8],
    told: &mut [u8],
    lengths: &mut TextLengths,
) -> Result<(), TextRefusal>
    ensures { Tells (words_of_number number) input.now printed.old told.old lengths.old
        result printed.new told.new lengths.new }
{
    let Some(words) = words_of_number(number) else {
        return Err(TextRefusal::NoSuchSubcommand);
    };
    let Ok(made) = made_of(alloc, words, input) else {
        return Err(TextRefusal::NoMemory);
    };
    *lengths = TextLengths {
        printed: made.printed.len(),
        told: made.told.len(),
    };
    if made.printed.len() > printed.len() || made.told.len() > told.len() {
        return Err(TextRefusal::NoRoom);
    }
    put(&made.printed, printed);
    put(&made.told, told);
    Ok(())
}

/// What the subcommand prints of the input, and what is told of its end.
fn made_of(alloc: Global, words: Words, input: &[u8]) -> Result<Made, AllocError>
    requires reads { ReadsInput words }
    ensures { IfOk result (λ made. IsMade words input.now made.printed.items made.told.items) }
{
    let mut source = Reader::new(input);
    let mut sink = Writer::new(Vec::new(alloc));
    let ran = run(alloc, words, &mut source, &mut sink);
    let told = lines_of(alloc, ran)?;
    Ok(Made {
        printed: sink.into_inner(),
        told,
    })
}

/// The lines that tell how a run over memory ended; where that is anything but the input's fault, memory was wanted.
fn lines_of(alloc: Global, ran: Result<(), Fault<TextFault>>) -> Result<Vec<u8>, AllocError>
    ensures { IfOk result (λ told. IsToldOfEnd ran told.items) }
{
    match ran {
        Ok(()) => Ok(Vec::new(alloc)),
        Err(Fault::Memory) | Err(Fault::Read) | Err(Fault::Write) => Err(AllocError),
        Err(fault) => line_of(alloc, &fault),
    }
}

/// The lines that show a fault, each ended by LF.
fn line_of(alloc: Global, fault: &Fault<TextFault>) -> Result<Vec<u8>, AllocError>
    ensures { IfOk result (λ told. IsLines told.items) }
{
    let mut told = fault.to_string(alloc)?.into_bytes();
    told.push(b'\n')?;
    Ok(told)
}

/// Puts octets at the front of a buffer that has room for them.
fn put(octets: &[u8], room: &mut [u8])
    requires { length octets.now ≤ length room.old }
    ensures { IsPut octets.now room.old room.new }
{
    room[..octets.len()].copy_from_slice(octets);
}
