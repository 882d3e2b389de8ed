//! What two banks are opened with.
ghost use Rattle.std.specs.Prelude.{◌≡◌, ◌<◌, ◌≤◌, ◌^◌, true, [], ◌∷◌, map, vec_len, IfOk};
ghost use Rattle.std.specs.List.{AllZip};
ghost use Rattle.bank_crew.specs.Jobs.{collects, duty_of, takes};
ghost use Rattle.bank_traffic.specs.Opening.{AreConfigs, body_of, each_set, method_of, near_jobs, numbers_below};
ghost use Rattle.bank_traffic.specs.Noise.{all_noises, noise_on, set_noises};
ghost use Rattle.line_ring.specs.Rings.{AreJoined};
ghost use Rattle.bank_traffic.specs.Sides.{duties, line_counts};
ghost use Rattle.l2_units.specs.declared.profile.Profile.TheVariants.{Narrow};
ghost use Rattle.set_events.specs.Method.{is_method};

use super::asked::Traffic;
use super::noise::{Noise, NoisyLine};
use bank_core::Job;
use line_ring::{RingLine, ring_pair};
use set_events::{Method, SetConfig};
use std::alloc::{AllocError, Global};

/// How many octets fit into a ring. Both rings of a link hold fewer than an emergency proving period lasts, 4,096 octet
/// times (Q.703 7.4), so what a link hears in service was sent in its present life.
const PLACES: usize = 1_800;

/// How messages are kept safe.
pub(crate) fn method_of(cyclic: bool) -> Method
    ensures { result ≡ method_of cyclic }
{
    if cyclic {
        Method::Cyclic { n1: 127, n2: 8_000 }
    } else {
        Method::Basic
    }
}

/// The configurations of the sets 0, 1, .., at the end of this point code.
pub(crate) fn configs_of(
    alloc: Global,
    sets: u16,
    links: u8,
    opc: u16,
    dpc: u16,
    method: Method,
) -> Result<Vec<SetConfig>, AllocError>
    requires links { (1 ≤ links) × (links ≤ 16) }
    requires codes { (opc < 2 ^ 14) × (dpc < 2 ^ 14) }
    requires method { is_method Narrow method ≡ true }
    ensures { IfOk result (λ configs. AreConfigs sets links opc dpc method configs.items) }
{
    let mut configs = Vec::new(alloc);
    for set in 0..sets {
        configs.reserve(1)?;
        match SetConfig::new(set, links, opc, dpc, 0x80, method) {
            Ok(config) => configs.push_reserved(config),
            Err(_) => unreachable!(),
        }
    }
    Ok(configs)
}

/// The two ends of each link of each set.
#[derive(Drop)]
pub(crate) struct Lines {
    pub(crate) near: Vec<Vec<NoisyLine<RingLine>>>,
    pub(crate) far: Vec<Vec<NoisyLine<RingLine>>>,
}

/// A pair of rings for each link of each set, with the noise that is asked for, another in each of them.
pub(crate) fn lines_of(alloc: Global, traffic: &Traffic) -> Result<Lines, AllocError>
    ensures near { IfOk result (λ lines. line_counts lines.near ≡ each_set traffic.now.sets traffic.now.links) }
    ensures far { IfOk result (λ lines. line_counts lines.far ≡ each_set traffic.now.sets traffic.now.links) }
    ensures near_noise { IfOk result (λ lines. map (λ of_set. map (λ own. own.first) of_set.items) lines.near.items
        ≡ all_noises traffic.now 0) }
    ensures far_noise { IfOk result (λ lines. map (λ of_set. map (λ own. own.first) of_set.items) lines.far.items
        ≡ all_noises traffic.now 1) }
    ensures joined { IfOk result (λ lines.
        AllZip (λ a b. AllZip (λ x y. AreJoined x.line y.line) a.items b.items) lines.near.items lines.far.items) }
{
    let mut lines = Lines {
        near: Vec::new(alloc),
        far: Vec::new(alloc),
    };
    for set in 0..traffic.sets {
        lines.near.reserve(1)?;
        lines.far.reserve(1)?;
        let (near, far) = set_lines(alloc, traffic, set)?;
        lines.near.push_reserved(near);
        lines.far.push_reserved(far);
    }
    Ok(lines)
}

/// The lines of a set at one end.
type SetLines = Vec<NoisyLine<RingLine>>;

/// A pair of rings for each link of one set.
fn set_lines(alloc: Global, traffic: &Traffic, set: u16) -> Result<(SetLines, SetLines), AllocError>
    ensures near { IfOk result (λ lines. vec_len lines.0 ≡ traffic.now.links) }
    ensures far { IfOk result (λ lines. vec_len lines.1 ≡ traffic.now.links) }
    ensures near_noise { IfOk result (λ lines. map (λ own. own.first) lines.0.items ≡ set_noises traffic.now 0 set) }
    ensures far_noise { IfOk result (λ lines. map (λ own. own.first) lines.1.items ≡ set_noises traffic.now 1 set) }
    ensures joined { IfOk result (λ lines. AllZip (λ a b. AreJoined a.line b.line) lines.0.items lines.1.items) }
{
    let mut near = Vec::new(alloc);
    let mut far = Vec::new(alloc);
    for link in 0..traffic.links {
        near.reserve(1)?;
        far.reserve(1)?;
        let (near_line, far_line) = ring_pair(alloc, PLACES)?;
        near.push_reserved(NoisyLine::new(near_line, noise_of(traffic, set, link, 0)));
        far.push_reserved(NoisyLine::new(far_line, noise_of(traffic, set, link, 1)));
    }
    Ok((near, far))
}

/// The noise on what this end of a link puts, 0 for a and 1 for b: each has draws of its own.
fn noise_of(traffic: &Traffic, set: u16, link: u8, end: u8) -> Noise
    ensures { result ≡ noise_on traffic.now set link end }
{
    let line = u32::from(set) * 32 + u32::from(link) * 2 + u32::from(end);
    let seed = traffic.seed.wrapping_add(line.wrapping_mul(40_503));
    Noise::new(traffic.noise.unwrap_or(0), seed)
}

/// The jobs of each set's users at the ends a: each offers so many messages.
pub(crate) fn offers_of(
    alloc: Global,
    sets: u16,
    users: u16,
    messages: u16,
) -> Result<Vec<Vec<Job>>, AllocError>
    ensures { IfOk result (λ all. duties all ≡ each_set sets (near_jobs users messages)) }
{
    let mut all = Vec::new(alloc);
    for _set in 0..sets {
        all.reserve(1)?;
        let jobs = set_offers(alloc, users, messages)?;
        all.push_reserved(jobs);
    }
    Ok(all)
}

/// The jobs of one set's users at end a.
fn set_offers(alloc: Global, users: u16, messages: u16) -> Result<Vec<Job>, AllocError>
    ensures { IfOk result (λ jobs. map duty_of jobs.items ≡ near_jobs users messages) }
{
    let mut jobs = Vec::new(alloc);
    for user in 0..users {
        jobs.reserve(1)?;
        let bodies = bodies_of(alloc, user, messages)?;
        jobs.push_reserved(Job::Offer { bodies });
    }
    Ok(jobs)
}

/// The bodies of a user's messages.
fn bodies_of(alloc: Global, user: u16, messages: u16) -> Result<Vec<Vec<u8>>, AllocError>
    ensures { IfOk result (λ bodies. map (λ body. body.items) bodies.items
        ≡ map (body_of user) (numbers_below messages)) }
{
    let mut bodies = Vec::new(alloc);
    for number in 0..messages {
        bodies.reserve(1)?;
        let body = Vec::from_slice(alloc, &body_of(user, number))?;
        bodies.push_reserved(body);
    }
    Ok(bodies)
}

/// A message: SIO, a label to point code 1 from point code 2 whose SLS is the user's number modulo 16 (Q.704 2.2), and
/// its own number, the high octet first.
pub fn body_of(user: u16, number: u16) -> [u8; 7]
    ensures { result ≡ body_of user number }
{
    [
        0x85,
        0x01,
        0x80,
        0x00,
        ((user % 16) * 16) as u8,
        (number / 256) as u8,
        (number % 256) as u8,
    ]
}

/// The job of each set's one user at the ends b: to ask so often for a message.
pub(crate) fn takes_of(alloc: Global, sets: u16, times: u32) -> Result<Vec<Vec<Job>>, AllocError>
    ensures { IfOk result (λ all. duties all ≡ each_set sets (takes times ∷ [])) }
{
    let mut all = Vec::new(alloc);
    for _set in 0..sets {
        let mut jobs = Vec::new(alloc);
        jobs.reserve(1)?;
        jobs.push_reserved(Job::Take { times });
        all.reserve(1)?;
        all.push_reserved(jobs);
    }
    Ok(all)
}

/// The job of each set's one user at the ends b, where it keeps what it takes: to ask so often for a message.
pub(crate) fn collects_of(alloc: Global, sets: u16, times: u32) -> Result<Vec<Vec<Job>>, AllocError>
    ensures { IfOk result (λ all. duties all ≡ each_set sets (collects times ∷ [])) }
{
    let mut all = Vec::new(alloc);
    for _set in 0..sets {
        let mut jobs = Vec::new(alloc);
        jobs.reserve(1)?;
        jobs.push_reserved(Job::Collect { times });
        all.reserve(1)?;
        all.push_reserved(jobs);
    }
    Ok(all)
}
