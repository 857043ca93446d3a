// What the clock decides of an entry's proof and of its ping.
#![tactic(auto)]

ghost use Rattle.std.specs.Prelude.{◌≡◌, ◌-◌};
ghost use Rattle.bucket_model.specs.Rules.{is_proved, proof_holds, proof_expired, is_out, is_overdue};

use entry::{EndpointProof, PingState};
use node::MonotonicMillis;

// A pong is in time up to and including this many milliseconds after its ping.
pub const PING_TIMEOUT: u64 = 500;

// A proof holds up to and including this many milliseconds.
pub const PROOF_LIFETIME: u64 = 43_200_000;

// The milliseconds from `then` to `clock`, 0 where `then` is later.
fn since(then: MonotonicMillis, clock: MonotonicMillis) -> u64
    ensures { result ≡ clock.0 - then.0 }
{
    if clock.0 < then.0 {
        return 0;
    }
    clock.0 - then.0
}

pub fn is_proved(proof: EndpointProof) -> bool
    ensures { result ≡ is_proved proof }
{
    match proof {
        EndpointProof::Unproved => false,
        EndpointProof::At(_) => true,
    }
}

pub fn proof_holds(proof: EndpointProof, clock: MonotonicMillis) -> bool
    ensures { result ≡ proof_holds clock.0 proof }
{
    match proof {
        EndpointProof::Unproved => false,
        EndpointProof::At(t) => since(t, clock) <= PROOF_LIFETIME,
    }
}

pub fn proof_expired(proof: EndpointProof, clock: MonotonicMillis) -> bool
    ensures { result ≡ proof_expired clock.0 proof }
{
    match proof {
        EndpointProof::Unproved => false,
        EndpointProof::At(t) => PROOF_LIFETIME < since(t, clock),
    }
}

pub fn is_out(ping: PingState) -> bool
    ensures { result ≡ is_out ping }
{
    match ping {
        PingState::Quiet => false,
        PingState::Out(_) => true,
    }
}

// A ping went out more than 500 ms ago.
pub fn is_overdue(ping: PingState, clock: MonotonicMillis) -> bool
    ensures { result ≡ is_overdue clock.0 ping }
{
    match ping {
        PingState::Quiet => false,
        PingState::Out(t) => PING_TIMEOUT < since(t, clock),
    }
}
