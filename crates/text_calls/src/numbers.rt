//! Subcommands by numbers.
ghost use Rattle.std.specs.Prelude.{◌≡◌, IfSome, Some};
ghost use Rattle.mtpbank_words.specs.declared.words.Words.TheVariants.{Script};
ghost use Rattle.text_calls.specs.Numbers.{words_of_number, words_that};
ghost use Rattle.text_calls.specs.Running.{ReadsInput};

use mtpbank_words::{Told, Words};

/// The subcommand of this number, if there is one: 0 to 10, or, with the input's faults explained, 16 to 25.
pub fn words_of_number(number: u8) -> Option<Words>
    ensures found { result ≡ words_of_number number }
    ensures reads { IfSome result ReadsInput }
{
    if number >= 16 {
        words_that(number - 16, true)
    } else if number == 10 {
        Some(Words::Units)
    } else {
        words_that(number, false)
    }
}

/// The subcommand of this number among those that can explain a fault of their input.
fn words_that(number: u8, explains: bool) -> Option<Words>
    ensures found { result ≡ words_that number explains }
    ensures reads { IfSome result ReadsInput }
{
    match number {
        0 => script(Told::Play, explains),
        1 => script(Told::Ladder, explains),
        2 => script(Told::Capture, explains),
        3 => script(Told::HistoryOfA, explains),
        4 => script(Told::HistoryOfB, explains),
        5 => Some(Words::Audit { explains }),
        6 => Some(Words::Decode {
            wide: false,
            explains,
        }),
        7 => Some(Words::Decode {
            wide: true,
            explains,
        }),
        8 => Some(Words::Terminal {
            keeps: false,
            explains,
        }),
        9 => Some(Words::Terminal {
            keeps: true,
            explains,
        }),
        _ => None,
    }
}

/// What is told of a script.
fn script(told: Told, explains: bool) -> Option<Words>
    ensures found { result ≡ Some (Script told explains) }
    ensures reads { IfSome result ReadsInput }
{
    Some(Words::Script { told, explains })
}
