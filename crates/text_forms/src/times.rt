//! The line that tells the times of level 3.
ghost use Rattle.std.specs.Prelude.{◌≡◌};
ghost use Rattle.std.specs.Result.{result_map_both};
ghost use Rattle.text_forms.specs.Times.{times, times_of, times_read};

use super::mistake::Mistake;
use super::named::Named;
use super::terminal_mistake::TerminalMistake;
use super::words::{Blame, Words, cut, judge};
use l3_link::Times;
use text_base::is_word;

/// The times that a line `level3 t1=N t2=N t4=N t5=N t17=N k1=N k2=N` tells, or the word at fault.
pub fn read_times(text: &[u8]) -> Result<Times, Blame>
    ensures { result_map_both times_of (λ blame. blame) result ≡ times_read text.now }
{
    let (name, left) = cut(text);
    if is_word(name, b"level3") {
        let short = Mistake::Terminal(TerminalMistake::Level3Wants);
        read_lengths(Words::new(text.len(), short, left))
    } else {
        Err(Blame {
            column: 0,
            mistake: judge(name, Mistake::Terminal(TerminalMistake::UnknownWord)),
        })
    }
}

/// The times, from the words behind the name.
fn read_lengths(mut words: Words<'_>) -> Result<Times, Blame>
    ensures { result_map_both times_of (λ blame. blame) result ≡ times words.entry }
{
    let t1 = words.named(Named::T1)?;
    let t2 = words.named(Named::T2)?;
    let t4 = words.named(Named::T4)?;
    let t5 = words.named(Named::T5)?;
    let t17 = words.named(Named::T17)?;
    let k1 = words.named(Named::K1)?;
    let k2 = words.named(Named::K2)?;
    words.finish()?;
    Ok(Times {
        t1: t1 as u32,
        t2: t2 as u32,
        t4: t4 as u32,
        t5: t5 as u32,
        t17: t17 as u32,
        k1: k1 as u32,
        k2: k2 as u32,
    })
}
