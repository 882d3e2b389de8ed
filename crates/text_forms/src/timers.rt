//! The line that tells the timers' lengths.
ghost use Rattle.std.specs.Prelude.{◌≡◌};
ghost use Rattle.std.specs.Result.{result_map_both};
ghost use Rattle.text_forms.specs.Timers.{lengths, timers_of, timers_read};

use super::mistake::Mistake;
use super::named::Named;
use super::terminal_mistake::TerminalMistake;
use super::words::{Blame, Words, cut, judge};
use term_model::Timers;
use text_base::is_word;

/// The lengths where no line tells them, in octet times: at 64 kbit/s 45 s, 50 s, 1.5 s, 0.1 s, 4 s and 1 s (Q.703 12.3).
pub const USUAL_TIMERS: Timers = Timers {
    t1: 360_000,
    t2: 400_000,
    t3: 12_000,
    t5: 800,
    t6: 32_000,
    t7: 8_000,
};

/// The lengths that a line `timers t1=N t2=N t3=N t5=N t6=N t7=N` tells, or the word at fault.
pub fn read_timers(text: &[u8]) -> Result<Timers, Blame>
    ensures { result_map_both timers_of (λ blame. blame) result ≡ timers_read text.now }
{
    let (name, left) = cut(text);
    if is_word(name, b"timers") {
        let short = Mistake::Terminal(TerminalMistake::TimersWants);
        read_lengths(Words::new(text.len(), short, left))
    } else {
        Err(Blame {
            column: 0,
            mistake: judge(name, Mistake::Terminal(TerminalMistake::UnknownWord)),
        })
    }
}

/// The lengths, from the words behind the name.
fn read_lengths(mut words: Words<'_>) -> Result<Timers, Blame>
    ensures { result_map_both timers_of (λ blame. blame) result ≡ lengths words.entry }
{
    let t1 = words.named(Named::T1)?;
    let t2 = words.named(Named::T2)?;
    let t3 = words.named(Named::T3)?;
    let t5 = words.named(Named::T5)?;
    let t6 = words.named(Named::T6)?;
    let t7 = words.named(Named::T7)?;
    words.finish()?;
    Ok(Timers {
        t1: t1 as u32,
        t2: t2 as u32,
        t3: t3 as u32,
        t5: t5 as u32,
        t6: t6 as u32,
        t7: t7 as u32,
    })
}
