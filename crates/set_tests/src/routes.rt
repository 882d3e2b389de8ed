//! Streams at changeover and changeback. The expected places follow from Q.704 5 and the rules of the set by hand.
ghost use Rattle.std.specs.Prelude.{◌≡◌, ◌<◌};

use super::bench::holds;
use set_route::*;
use std::test::Fail;

/// Whether this stream runs on the link.
fn is_on(routes: &Routes, stream: u8, link: u8) -> bool
    requires { stream < 16 }
{
    routes.place(stream) == Place::On { link }
}

/// Code 16 as message 7 declared it, with one acknowledgement owed.
fn asked_from(via: u8) -> Code {
    Code::Asked {
        via,
        declaration: 7,
        owed: 1,
    }
}

/// Whether stream 5 is on its way to link 1 from this link, and was asked back by code 16.
fn comes_via(routes: &Routes, via: u8) -> bool {
    let there = Place::Changing {
        to: 1,
        code: 16,
        via,
    };
    routes.place(5) == there && routes.code(16) == asked_from(via)
}

/// Two links: stream 3 has home 1, stream 4 has home 0. While link 1 alone is up both run on it.
#[test]
fn streams_run_on_the_first_link_that_comes_up() -> Result<(), Fail> {
    let mut routes = Routes::new(2);
    let nowhere = routes.place(3) == Place::Nowhere;
    routes.raise(1);
    holds(nowhere && is_on(&routes, 3, 1) && is_on(&routes, 4, 1))
}

/// Link 0 comes up while link 1 carries its streams: one with messages stays, one without goes home.
#[test]
fn a_stream_that_has_had_messages_stays_at_an_up() -> Result<(), Fail> {
    let mut routes = Routes::new(2);
    routes.raise(1);
    routes.accept(4);
    routes.raise(0);
    holds(is_on(&routes, 4, 1) && is_on(&routes, 6, 0) && is_on(&routes, 3, 1))
}

/// Of three links the third fails: its streams stay until it settles, then run on the lowest that is
/// up. When that one fails too, with no other left, they run nowhere.
#[test]
fn a_stream_moves_when_its_link_settles() -> Result<(), Fail> {
    let mut routes = Routes::new(3);
    routes.raise(1);
    routes.raise(2);
    routes.accept(5);
    routes.divert(2);
    let stays = is_on(&routes, 5, 2);
    routes.settle(2, target(&[false, true, false]));
    let moved = is_on(&routes, 5, 1) && is_on(&routes, 15, 1);
    routes.settle(1, None);
    holds(stays && moved && routes.place(5) == Place::Nowhere)
}

/// Two links, of which link 1 fails and comes up again: stream 5 is on its way back to it from link 0, by code 16.
fn asks_back() -> Routes
    ensures { result.links ≡ 2 }
{
    let mut routes = Routes::new(2);
    routes.raise(1);
    routes.raise(0);
    routes.accept(5);
    routes.divert(1);
    routes.settle(1, Some(0));
    routes.raise(1);
    routes.ask(1, 0, 7);
    routes
}

/// Stream 5 has had a message and goes back by its code; stream 3, which had none, is at home already.
#[test]
fn a_stream_with_messages_comes_back_by_its_code() -> Result<(), Fail> {
    let mut routes = asks_back();
    let on_its_way = comes_via(&routes, 0) && is_on(&routes, 3, 1);
    let again = routes.ask(1, 0, 8);
    routes.acknowledge(16);
    let back = is_on(&routes, 5, 1) && routes.code(16) == Code::Free;
    let once_more = routes.ask(1, 0, 9);
    holds(on_its_way && !again && back && !once_more)
}

/// The home is left: the stream stays where it came from, and its code is spent until it's given back.
#[test]
fn a_code_is_spent_where_its_home_is_left() -> Result<(), Fail> {
    let mut routes = asks_back();
    routes.divert(1);
    let spent = is_on(&routes, 5, 0) && routes.code(16) == Code::Spent { owed: 1 };
    routes.settle(1, Some(0));
    routes.raise(1);
    let early = routes.ask(1, 0, 8);
    routes.give_back(16);
    let stays = is_on(&routes, 5, 0);
    let asked = routes.ask(1, 0, 7) && routes.code(16) == asked_from(0);
    holds(spent && !early && stays && asked)
}

/// Declared once more by message 9, the code is open from where it was. The first acknowledgement brings the stream
/// home, and the second frees the code, which isn't declared again meanwhile.
#[test]
fn a_code_is_free_after_as_many_answers_as_declarations() -> Result<(), Fail> {
    let mut routes = asks_back();
    declare_again(&mut routes, 9);
    let open = routes.code(16)
        == Code::Asked {
            via: 0,
            declaration: 9,
            owed: 2,
        };
    routes.acknowledge(16);
    let home = is_on(&routes, 5, 1);
    declare_again(&mut routes, 11);
    let spent = routes.code(16) == Code::Spent { owed: 1 };
    routes.acknowledge(16);
    let free = routes.code(16) == Code::Free;
    declare_again(&mut routes, 12);
    holds(open && home && spent && free && routes.code(16) == Code::Free)
}

/// Code 16 is declared once more by this message, where few acknowledgements are owed under it.
fn declare_again(routes: &mut Routes, declaration: u64) {
    if routes.code(16).owed() < 100 {
        routes.ask_again(16, declaration);
    }
}

/// The link that the stream comes from settles: it comes from the target then, and its code stays.
#[test]
fn a_stream_on_its_way_comes_from_the_target() -> Result<(), Fail> {
    let mut routes = asks_back();
    routes.divert(0);
    routes.settle(0, Some(1));
    let on_its_way = comes_via(&routes, 1);
    routes.clear(1);
    holds(on_its_way && is_on(&routes, 5, 1) && routes.code(16) == Code::Free)
}

#[test]
fn the_target_is_the_lowest_link_that_is_up() -> Result<(), Fail> {
    let second = target(&[false, true, true]) == Some(1);
    let none = target(&[false, false]) == None;
    holds(second && none && target(&[true; 16]) == Some(0))
}
