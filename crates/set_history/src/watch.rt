//! Where entries begin to come again.
use set_events::EventRef;

/// The longest text of an entry of a fill-in unit.
const LONGEST_FILL_IN: usize = 8;

/// Where each link's last entries of fill-in units stand, of one that was sent and of one that was heard; and how many
/// octets the last entry stands behind the one of its link and kind before it.
///
/// It only guesses: what it tells is compared before it counts.
#[derive(Drop)]
pub(crate) struct Watch {
    last: [usize; 32],
    back: usize,
}

impl Watch {
    /// Nothing was seen.
    pub(crate) fn new() -> Watch {
        Watch {
            last: [0; 32],
            back: 0,
        }
    }

    /// An entry of this event was written to these octets; how many octets before their end the entry stands that is
    /// expected next, 0 where none is. One is where this entry and the one before it stand as far behind those of their
    /// link and kind: then entries come in turn.
    pub(crate) fn back(&mut self, event: &EventRef<'_>, from: usize, to: usize) -> usize {
        if to.saturating_sub(from) > LONGEST_FILL_IN {
            self.back = 0;
            return 0;
        }
        let place = match event {
            EventRef::Next { link } => usize::from(link % 16),
            EventRef::Heard { link, .. } => 16 + usize::from(link % 16),
            _ => {
                self.back = 0;
                return 0;
            }
        };
        let back = from.saturating_sub(self.last[place]);
        self.last[place] = from;
        let expected = if back == self.back { back } else { 0 };
        self.back = back;
        expected
    }
}
