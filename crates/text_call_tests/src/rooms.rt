//! What is put where there is room, and where an octet is missing.

use std::alloc::Global;
use std::test::Fail;
use text_calls::{TextLengths, TextRefusal, tell, words_of_number};

/// A script whose one line behind the opening prints `up`; behind it stands how both ends stand.
const SCRIPT: &[u8] = b"set links=1 method=basic a=2 b=1 sio=80\ntogether 0\nofer\n";

#[test]
fn a_line_at_fault_ends_what_is_printed(rt: HostRuntime) -> Result<(), Fail> {
    let (mut printed, mut told) = ([b'.'; 8], [b'.'; 24]);
    let (ended, lengths) = told_into(rt.alloc(), 0, &mut printed, &mut told);
    holds(ended == Ok(()) && lengths.printed == 3 && lengths.told == 18)?;
    holds(&printed == b"up\n....." && &told == b"fault line 3 text\n......")
}

#[test]
fn where_an_octet_is_missing_nothing_is_put(rt: HostRuntime) -> Result<(), Fail> {
    let (mut printed, mut told) = ([b'.'; 2], [b'.'; 18]);
    let (ended, lengths) = told_into(rt.alloc(), 0, &mut printed, &mut told);
    holds(ended == Err(TextRefusal::NoRoom) && lengths.printed == 3 && lengths.told == 18)?;
    holds(printed == [b'.'; 2] && told == [b'.'; 18])?;
    let (mut printed, mut told) = ([b'.'; 3], [b'.'; 17]);
    let (ended, _) = told_into(rt.alloc(), 0, &mut printed, &mut told);
    holds(ended == Err(TextRefusal::NoRoom) && printed == [b'.'; 3])
}

#[test]
fn sixteen_more_explains_the_fault(rt: HostRuntime) -> Result<(), Fail> {
    let (mut printed, mut told) = ([b'.'; 8], [b'.'; 128]);
    let (ended, lengths) = told_into(rt.alloc(), 16, &mut printed, &mut told);
    let lines =
        b"fault line 3 text\nline 3: no line of a script begins with this word\n  ofer\n  ^\n";
    holds(ended == Ok(()) && told.get(..lengths.told) == Some(lines.as_slice()))
}

#[test]
fn no_subcommand_has_these_numbers(rt: HostRuntime) -> Result<(), Fail> {
    for number in [11, 15, 26, 255] {
        let (ended, lengths) = told_into(rt.alloc(), number, &mut [0; 4], &mut [0; 32]);
        holds(ended == Err(TextRefusal::NoSuchSubcommand) && lengths.printed == 77)?;
        holds(words_of_number(number).is_none())?;
    }
    Ok(())
}

fn told_into(
    alloc: Global,
    number: u8,
    printed: &mut [u8],
    told: &mut [u8],
) -> (Result<(), TextRefusal>, TextLengths) {
    let mut lengths = TextLengths {
        printed: 77,
        told: 77,
    };
    let ended = tell(alloc, number, SCRIPT, printed, told, &mut lengths);
    (ended, lengths)
}

fn holds(fact: bool) -> Result<(), Fail> {
    if fact {
        Ok(())
    } else {
        Err(Fail::from("it isn't so"))
    }
}
