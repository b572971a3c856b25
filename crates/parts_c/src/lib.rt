// The digest of input that arrives in parts, as C sees it. The state lies behind a pointer, and the three calls copy it in and out.
#![tactic(auto)]

ghost use Rattle.std.specs.Prelude.{◌≡◌};
ghost use Rattle.kept.specs.Kept.{filled};
ghost use Rattle.parts_c.specs.Parts.{parts_left, begin_call, add_call, end_call};

use parts::Parts;

// A digest in parts, begun.
#[unsafe(no_mangle)]
pub extern "C" fn keeper_parts_begin(mode: &[u8; 36], state: &mut Parts) -> u32
    ensures { parts_left result state.new ≡ begin_call mode.now }
{
    let s = parts::begin(mode);
    *state = s;
    0
}

// One more part.
#[unsafe(no_mangle)]
pub extern "C" fn keeper_parts_add(state: &mut Parts, part: &[u8]) -> u32
    ensures { parts_left result state.new ≡ add_call state.old part.now }
{
    kept::put(parts::add(*state, part), state)
}

// The digest of all parts so far, into the first 32 bytes of out.
#[unsafe(no_mangle)]
pub extern "C" fn keeper_parts_end(state: &Parts, out: &mut [u8]) -> u32
    ensures { filled result out.new ≡ end_call state.now out.old }
{
    match parts::end(*state) {
        Ok(digest) => kept::hand(digest.bytes, out),
        Err(why) => u32::from(why),
    }
}
