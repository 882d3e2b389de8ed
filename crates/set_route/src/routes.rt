//! The streams of a set, and its changeback codes.
ghost use Rattle.std.specs.Prelude.{◌≡◌, map};
ghost use Rattle.set_route.specs.Routing.{code_settled, codes_left, some_away, stream_back};

use super::place::{Code, Place, changeback_code};
use super::stream::Stream;
use std::marker::Model;

/// The streams of a set, one for each SLS.
pub const STREAMS: usize = 16;

/// The most links of a set, one for each SLC.
pub const MOST_LINKS: u8 = 16;

/// How many changeback codes there are: they have 8 bits (Q.704 15.4.2).
const CODES: usize = 256;

/// Where each of a set's 16 streams runs, and what became of its 256 changeback codes.
///
/// Contracts see how many links the set has, for each stream its home, whether a message of it was
/// ever accepted and where it runs, and each code's state. It's a few octets a stream and 24 a code,
/// and takes no memory.
#[derive(Debug, Drop)]
pub struct Routes {
    links: u8,
    streams: [Stream; STREAMS],
    /// By their numbers.
    codes: [Code; CODES],
}

impl Model for Routes {
    ghost use Rattle.set_route.specs.Routing.{Routing, IsRouting};

    ghost Value = { Routing };

    ghost view = { λ r. record { links = r.links; streams = r.streams; codes = r.codes } };

    ghost invariant = { λ r. IsRouting (record { links = r.links; streams = r.streams; codes = r.codes }) };
}

impl Routes {
    ghost use Rattle.std.specs.Prelude.{◌≡◌, ◌<◌, ◌≤◌, ◌^◌, IfSome, if◌then◌else◌};
    ghost use Rattle.set_route.specs.Routing.{IsRouting, IsPlaceOf, new_routing, place_of, code_of, can_ask};
    ghost use Rattle.set_route.specs.Routing.{accepted, raised, left, settled, asked, asked_again, given_back, answered, cleared, owed_under};

    /// The streams of a set of so many links. No link was up yet, so they run nowhere, and no code is in use.
    ///
    /// Condition: 1 to 16 links.
    pub fn new(links: u8) -> Routes
        requires some { 1 ≤ links }
        requires few { links ≤ 16 }
        ensures { result ≡ new_routing links }
    {
        let mut streams = [Stream::new(0); STREAMS];
        for (number, stream) in streams.iter_mut().enumerate() {
            *stream = Stream::new(number as u8 % links);
        }
        Routes {
            links,
            streams,
            codes: [Code::Free; CODES],
        }
    }

    /// The same again.
    pub fn copied(&self) -> Routes
        ensures { result ≡ self.now }
    {
        Routes {
            links: self.links,
            streams: self.streams,
            codes: self.codes,
        }
    }

    /// Where this stream runs; the links that it names are of the set.
    ///
    /// Condition: a stream below 16.
    pub fn place(&self, stream: u8) -> Place
        requires { stream < 16 }
        ensures value { result ≡ place_of stream self.now }
        ensures there { IsPlaceOf self.now.links result }
    {
        self.streams[usize::from(stream)].place
    }

    /// What became of the changeback code of this number.
    pub fn code(&self, number: u8) -> Code
        ensures { result ≡ code_of number self.now }
    {
        self.codes[usize::from(number)]
    }

    /// Whether [`Routes::ask`] would ask: the code of this home and alternative is free, and streams of this home
    /// run on the alternative.
    ///
    /// Condition: both below 16.
    pub fn can_ask(&self, home: u8, alternative: u8) -> bool
        requires home { home < 16 }
        requires alternative { alternative < 16 }
        ensures { result ≡ can_ask home alternative self.now }
    {
        self.code(changeback_code(home, alternative)).is_free()
            && has_away(&self.streams, home, alternative)
    }

    /// A message of this stream was accepted. It changes no place now: from now on the stream stays
    /// where it runs when its home comes up.
    ///
    /// Condition: a stream below 16.
    pub fn accept(&mut self, stream: u8)
        requires { stream < 16 }
        ensures { self.new ≡ accepted stream self.old }
    {
        self.streams[usize::from(stream)].used = true;
    }

    /// The link is up. Streams that run nowhere, and streams of this home that run elsewhere and of which
    /// no message was ever accepted, run on it.
    ///
    /// Condition: a link of the set.
    pub fn raise(&mut self, link: u8)
        requires { link < self.old.links }
        ensures { self.new ≡ raised link self.old }
    {
        for stream in self.streams.iter_mut() {
            stream.raise(link);
        }
    }

    /// The link is left (Q.704 5.3). Its streams still run on it, and their messages are held, until
    /// it settles. Streams on their way back to it run where they came from, and its open codes are spent.
    ///
    /// Condition: a link of the set.
    pub fn divert(&mut self, link: u8)
        requires { link < self.old.links }
        ensures { self.new ≡ left link self.old }
    {
        leave_codes(&mut self.codes, link);
        for stream in self.streams.iter_mut() {
            stream.leave(link);
        }
    }

    /// The link settled, after it was left: its streams run on the target, or nowhere without one
    /// (Q.704 5.5), and streams on their way back that came from it come from the target. The target is the
    /// answer of [`crate::target`].
    ///
    /// Condition: both are links of the set.
    pub fn settle(&mut self, link: u8, target: Option<u8>)
        requires link { link < self.old.links }
        requires target { IfSome target (λ to. to < self.old.links) }
        ensures { self.new ≡ settled link target self.old }
    {
        settle_codes(&mut self.codes, link, target);
        for stream in self.streams.iter_mut() {
            stream.settle(link, target);
        }
    }

    /// Changeback is asked for (Q.704 6.3): the streams of this home that run on the alternative are on their way
    /// back, and their code is open: it was declared by the message of this number, and one acknowledgement is owed.
    /// Answers whether there was anything to ask for: if the code isn't free, or no stream is away, it's false and
    /// nothing changes.
    ///
    /// Condition: both are links of the set.
    pub fn ask(&mut self, home: u8, alternative: u8, declaration: u64) -> bool
        requires home { home < self.old.links }
        requires alternative { alternative < self.old.links }
        ensures answer { result ≡ can_ask home alternative self.old }
        ensures change { self.new ≡ (if result then asked home alternative declaration self.old else self.old) }
    {
        if !self.can_ask(home, alternative) {
            return false;
        }
        self.codes[usize::from(changeback_code(home, alternative))] = Code::Asked {
            via: alternative,
            declaration,
            owed: 1,
        };
        for stream in self.streams.iter_mut() {
            stream.ask(home, alternative);
        }
        true
    }

    /// An open code was declared once more, by the message of this number: one acknowledgement more is owed (Q.704
    /// 6.3). Any other stays as it is.
    ///
    /// Condition: fewer acknowledgements are owed under it than a number can count.
    pub fn ask_again(&mut self, code: u8, declaration: u64)
        requires { owed_under (code_of code self.old) < 2 ^ 63 }
        ensures { self.new ≡ asked_again code declaration self.old }
    {
        let at = usize::from(code);
        if let Code::Asked { via, owed, .. } = self.codes[at] {
            self.codes[at] = Code::Asked {
                via,
                declaration,
                owed: owed + 1,
            };
        }
    }

    /// The code is acknowledged (Q.704 6.3): its streams run on their home; it's spent while more acknowledgements are
    /// owed, and then free. A spent code has no streams, and a free one stays free.
    pub fn acknowledge(&mut self, code: u8)
        ensures { self.new ≡ answered code self.old }
    {
        let at = usize::from(code);
        self.codes[at] = self.codes[at].answered();
        run_home(&mut self.streams, code);
    }

    /// No acknowledgement came (own): the code's streams run on their home, and it's free.
    pub fn give_back(&mut self, code: u8)
        ensures { self.new ≡ given_back code self.old }
    {
        self.codes[usize::from(code)] = Code::Free;
        run_home(&mut self.streams, code);
    }

    /// No acknowledgement came in time (own): all codes of this home are given back, ascending.
    ///
    /// Condition: a home below 16.
    pub fn clear(&mut self, home: u8)
        requires { home < 16 }
        ensures { self.new ≡ cleared home self.old }
    {
        for alternative in 0..MOST_LINKS {
            self.give_back(changeback_code(home, alternative));
        }
    }

    /// A law: the set has 1 to 16 links, 16 streams and 256 codes; the home of stream s is s modulo the number
    /// of links; each stream runs on a link of the set or nowhere, and one on its way back goes to the home of its
    /// code, which is open; a code in use is one of a link of the set.
    pub fn is_sound(&self)
        ensures { IsRouting self.now }
    {
        let _ = &self.links;
    }
}

/// Whether streams of this home run on the alternative.
fn has_away(streams: &[Stream; STREAMS], home: u8, alternative: u8) -> bool
    ensures { result ≡ some_away home alternative streams.now }
{
    streams
        .iter()
        .any(|stream| stream.is_away(home, alternative))
}

/// The open codes of this home are spent.
fn leave_codes(codes: &mut [Code; CODES], link: u8)
    ensures { codes.new ≡ codes_left link 0 codes.old }
{
    for (number, code) in codes.iter_mut().enumerate() {
        code.leave(number as u8, link);
    }
}

/// The link settled: open codes whose streams came from it come from the target.
fn settle_codes(codes: &mut [Code; CODES], link: u8, target: Option<u8>)
    ensures { codes.new ≡ map (code_settled link target) codes.old }
{
    for code in codes.iter_mut() {
        code.settle(link, target);
    }
}

/// The streams that wait for the code run on their home.
fn run_home(streams: &mut [Stream; STREAMS], code: u8)
    ensures { streams.new ≡ map (stream_back code) streams.old }
{
    for stream in streams.iter_mut() {
        stream.give_back(code);
    }
}
