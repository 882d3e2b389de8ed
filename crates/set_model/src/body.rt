//! What a body tells of itself.
ghost use Rattle.std.specs.Prelude.{◌≡◌, ◌<◌};
ghost use Rattle.set_model.specs.Rows.{service_indicator, stream_of};

/// The service indicator of a body: the low four bits of its SIO (Q.704 14.2.1), 0 where there is none.
pub fn service_indicator(body: &[u8]) -> u8
    ensures { result ≡ service_indicator body.now }
{
    match body.first() {
        Some(sio) => *sio % 16,
        None => 0,
    }
}

/// The stream of a body: the high four bits of its fifth octet, 0 where there is none.
pub fn stream_of_body(body: &[u8]) -> u8
    ensures value { result ≡ stream_of body.now }
    ensures few { result < 16 }
{
    match body.get(4) {
        Some(octet) => *octet / 16,
        None => 0,
    }
}
