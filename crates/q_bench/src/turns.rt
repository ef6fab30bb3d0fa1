ghost use Rattle.std.specs.Prelude.{◌≡◌, ◌≤◌, ◌<◌};

use crate::checksum;
use q_drr::{Active, Turn};
use std::alloc::Global;

/// The longest packet, in bytes.
const MTU: u16 = 1514;

/// Gives turns among so many active classes of one quantum, for heads of these lengths, so many times over.
#[unsafe(no_mangle)]
pub extern "C" fn q_bench_turn(
    alloc: Global,
    classes: u16,
    quantum: u32,
    lens: &[u16],
    passes: u32,
) -> u64 {
    if quantum == 0 {
        return 0;
    }
    let mut active = Active::new(alloc, MTU);
    for class in 0..classes {
        if active.add(class, quantum).is_err() {
            return 0;
        }
        active.wake(class);
    }
    give_turns(&mut active, lens, passes).unwrap_or(0)
}

fn give_turns(active: &mut Active, lens: &[u16], passes: u32) -> Option<u64>
    requires { active.old.max_len ≡ 1514 }
{
    let mut sum = 0;
    for _ in 0..passes {
        for len in lens {
            let place = active.front_place()?;
            let head_len = (*len).min(MTU);
            let sent = active.turn(head_len) == Turn::Send;
            sum = checksum::with(sum, (place as u64) << 1 | u64::from(sent));
        }
    }
    Some(sum)
}
