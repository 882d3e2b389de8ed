//! One stream.
ghost use Rattle.std.specs.Prelude.{◌≡◌, ◌<◌};
ghost use Rattle.set_route.specs.Routing.{is_away, new_stream, stream_asked, stream_back};
ghost use Rattle.set_route.specs.Routing.{stream_left, stream_raised, stream_settled};

use super::place::{Place, changeback_code};

/// One stream of a set: all messages of one SLS.
#[derive(Clone, Copy, Debug, Drop, PartialEq, Eq)]
pub(crate) struct Stream {
    /// The link that it runs on unless a changeover moved it.
    pub(crate) home: u8,
    /// Whether a message of it was ever accepted.
    pub(crate) used: bool,
    /// Where it runs.
    pub(crate) place: Place,
}

impl Stream {
    /// A stream of this home, of which no message was accepted.
    pub(crate) fn new(home: u8) -> Stream
        ensures { result ≡ new_stream home }
    {
        Stream {
            home,
            used: false,
            place: Place::Nowhere,
        }
    }

    /// The link is up.
    pub(crate) fn raise(&mut self, link: u8)
        ensures { self.new ≡ stream_raised link self.old }
    {
        let moves = match self.place {
            Place::On { .. } => self.home == link && !self.used,
            Place::Changing { .. } => false,
            Place::Nowhere => true,
        };
        if moves {
            self.place = Place::On { link };
        }
    }

    /// The link is left: on its way to that link it goes no further, and runs where it came from.
    pub(crate) fn leave(&mut self, link: u8)
        ensures { self.new ≡ stream_left link self.old }
    {
        self.place = match self.place {
            Place::Changing { to, via, .. } if to == link => Place::On { link: via },
            place => place,
        };
    }

    /// The link settled, and its streams run on the target; a stream that came from it comes from the target.
    pub(crate) fn settle(&mut self, link: u8, target: Option<u8>)
        ensures { self.new ≡ stream_settled link target self.old }
    {
        self.place = match self.place {
            Place::On { link: on } if on == link => match target {
                Some(link) => Place::On { link },
                None => Place::Nowhere,
            },
            Place::Changing { to, code, via } if via == link => Place::Changing {
                to,
                code,
                via: target.unwrap_or(via),
            },
            place => place,
        };
    }

    /// Whether it has this home and runs on this alternative.
    pub(crate) fn is_away(&self, home: u8, alternative: u8) -> bool
        ensures { result ≡ is_away home alternative self.now }
    {
        self.home == home && self.place == (Place::On { link: alternative })
    }

    /// The way back from the alternative to this home is asked for: a stream that is away goes there.
    ///
    /// Condition: both below 16.
    pub(crate) fn ask(&mut self, home: u8, alternative: u8)
        requires home { home < 16 }
        requires alternative { alternative < 16 }
        ensures { self.new ≡ stream_asked home alternative self.old }
    {
        if self.is_away(home, alternative) {
            self.place = Place::Changing {
                to: home,
                code: changeback_code(home, alternative),
                via: alternative,
            };
        }
    }

    /// The code is acknowledged, or the wait for it is over: a stream that waits for it runs on its home.
    pub(crate) fn give_back(&mut self, code: u8)
        ensures { self.new ≡ stream_back code self.old }
    {
        self.place = match self.place {
            Place::Changing {
                to,
                code: awaited,
                ..
            } if awaited == code => Place::On { link: to },
            place => place,
        };
    }
}
