// The mode that a state keeps.
ghost use Rattle.std.specs.Prelude.{◌≡◌};
ghost use Rattle.blake.specs.Modes.{flag_in};
ghost use Rattle.parts.specs.State.{start_in};
ghost use Rattle.parts.specs.Answers.{begun_in};

use crate::Parts;
use blake::flag_in;
use chunks::Keying;
use compression::compress::START;
use words::load_half;

// The words that chaining begins with.
fn start_of(keyed: u32, key: [u32; 8]) -> [u32; 8]
    ensures { result ≡ start_in keyed key }
{
    if keyed == 0 {
        return START;
    }
    key
}

// What the mode puts into each compression: `blake` has it from a key in bytes, and a state keeps the key's words.
pub(crate) fn keying_of(keyed: u32, key: [u32; 8]) -> Keying
    ensures words { result.words ≡ start_in keyed key }
    ensures flag { result.flag ≡ flag_in keyed }
{
    let words = start_of(keyed, key);
    Keying {
        words,
        flag: flag_in(keyed),
    }
}

// The state that holds no byte, in the mode of a number and a key. The key of a plain mode means nothing, and is not kept.
pub(crate) fn begun(number: u32, key: [u8; 32]) -> Parts
    ensures { result ≡ begun_in number key }
{
    let mut keyed = 0;
    let mut words = [0u32; 8];
    let mut chain = START;
    if number != 0 {
        keyed = 1;
        words = load_half(&key);
        chain = words;
    }
    Parts {
        total: 0,
        held: 0,
        stacked: 0,
        keyed,
        key: words,
        chain,
        stack: [0u32; 240],
        block: [0u8; 64],
    }
}
