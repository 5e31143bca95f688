// Joint counts (R14.5): the busy generators on a channel of an order and on those before it, and the largest seen so
// far, for every order and every record. Assumes nothing.
#![tactic(auto)]

ghost use Rattle.std.specs.Prelude.{◌≡◌, ◌+◌, ◌≤◌, ◌<◌, take};
ghost use Rattle.joint.specs.Joint.{busy_on, raised};

use generators::Generators;

// The joint count of the first k channels, and the one of the channel at k.
fn next_joint(order: [u8; 16], k: usize, joint: u8, s: Generators) -> u8
    requires { (k < 16) × (joint ≡ busy_on (take k order) s) × (joint ≤ 64) }
    ensures { (result ≡ busy_on (take (k + 1) order) s) × (result ≤ 64) }
{
    let c = order[k];
    if order[..k].contains(&c) {
        return joint;
    }
    joint + candidates::busy_count(s, c)
}

// The largest joint counts, these generators included.
pub fn raise(order: [u8; 16], most: [u8; 16], s: Generators) -> [u8; 16]
    ensures { result ≡ raised order most s }
{
    let mut out = most;
    let mut joint: u8 = 0;
    for k in 0..16 {
        joint = next_joint(order, k, joint, s);
        out[k] = most[k].max(joint);
    }
    out
}
