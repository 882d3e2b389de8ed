//! The lines of a text whose outcomes a relation tells, as they're read.
use super::line_text::LineText;
use super::lines::is_passed_over;
use super::talk_text::TalkText;
use std::alloc::Global;
use std::marker::Model;
use text_base::Stop;

/// The lines of such a text under way.
#[derive(Drop)]
pub(crate) struct Talking<T> {
    pub(crate) text: T,
}

impl<T> Model for Talking<T> {
    ghost Value = { T };

    ghost view = { λ t. t.text };
}

impl<T: TalkText> LineText for Talking<T> {
    type Fault = T::Fault;

    const LONGEST_LINE: usize = 4096;

    ghost use Rattle.text_lines.specs.Talking.{HasTalked, IsTextOfAll};

    ghost LONGEST_LINE = { 4096 };

    ghost is_text = { IsTextOfAll T.rules };

    ghost has_read = { HasTalked T.rules };

    ghost very_long = { T.rules.unreadable };

    fn laws() {}

    fn very_long(number: u64) -> T::Fault {
        T::unreadable(number)
    }

    fn line(
        &mut self,
        alloc: Global,
        number: u64,
        text: &[u8],
        out: &mut Vec<u8>,
    ) -> Result<(), Stop<T::Fault>> {
        if is_passed_over(text) {
            return Ok(());
        }
        self.text.line(alloc, number, text, out)
    }

    fn end(&self, alloc: Global, _number: u64, out: &mut Vec<u8>) -> Result<(), Stop<T::Fault>> {
        self.text.end(alloc, out)
    }
}
