// The digest of input that arrives in parts: `begin` in a mode, `add` for each part, `end` whenever the digest is wanted. 17 is the one refusal.
#![tactic(auto)]

ghost use Rattle.std.specs.Prelude.{◌≡◌};
ghost use Rattle.parts.specs.Answers.{begin_outcome, add_outcome, added, end_outcome, ended_in};

mod blocks;
mod modes;
mod sound;
mod take;

use digest::Digest;
use refusals::Refused;
use sound::Sound;
use subtrees::counts::MOST;

// A state, as C lays it out, without padding: how many bytes came in all, how many of them the block holds, and how many subtrees the stack; the
// mode, whose number is 0 for plain and any other for keyed, and its key's words; the open chunk's chaining words; the stack of finished subtrees;
// the block.
#[repr(C)]
#[derive(Clone, Copy)]
pub struct Parts {
    pub total: u64,
    pub held: u64,
    pub stacked: u32,
    pub keyed: u32,
    pub key: [u32; 8],
    pub chain: [u32; 8],
    pub stack: [u32; 240],
    pub block: [u8; 64],
}

// The state that holds no byte, in a mode. What reads a mode is `digest`'s own, so that it is read here once more.
pub fn begin(mode: &[u8; 36]) -> Parts
    ensures { result ≡ begin_outcome mode.now }
{
    let number = wire::read4(mode, 0);
    let key = wire::read_digest(mode, 4);
    modes::begun(number, key)
}

// The state with a part more. A part of no bytes changes nothing.
pub fn add(state: Parts, part: &[u8]) -> Result<Parts, Refused>
    ensures { added state result ≡ add_outcome state part.now }
{
    let sound = Sound::of(state)?;
    if MOST - sound.state.total < (part.len() as u64) {
        return Err(Refused::PartsTooLong);
    }
    if part.is_empty() {
        return Ok(state);
    }
    Ok(sound.take_in(part))
}

// The state that `add` hands back: beside a refusal the one that it was given, every field of it.
pub fn state_after(state: Parts, answer: Result<Parts, Refused>) -> Parts
    ensures { result ≡ (added state answer).state }
{
    answer.unwrap_or(state)
}

// The digest of what a state holds. The state stays as it is, and more may be added.
pub fn end(state: Parts) -> Result<Digest, Refused>
    ensures { ended_in result ≡ end_outcome state }
{
    let sound = Sound::of(state)?;
    Ok(Digest {
        bytes: sound.finish(),
    })
}
