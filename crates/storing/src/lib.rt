// The machine's state stored into its 36 bytes.
#![tactic(auto)]

ghost use Rattle.std.specs.Prelude.{◌≡◌, length};
ghost use Rattle.state.specs.State.{state_length, stored};

use state::State;

// The parts one behind another, as `stored` lists them.
pub fn store(s: State, bytes: &mut [u8])
    requires { length bytes.old ≡ state_length }
    ensures { bytes.new ≡ stored s }
{
    let [pc_low, pc_high, ..] = s.pc.to_le_bytes();
    let [flag, ..] = s.flag.to_le_bytes();
    let [pending_low, pending_high, ..] = s.pending.to_le_bytes();
    let [depth, ..] = s.depth.to_le_bytes();
    let [stop, ..] = s.stop.to_le_bytes();
    bytes[..5].copy_from_slice(&[pc_low, pc_high, flag, pending_low, pending_high]);
    bytes[5..16].copy_from_slice(&s.values);
    bytes[16..18].copy_from_slice(&s.latches);
    bytes[18] = depth;
    bytes[19..35].copy_from_slice(s.returns.map(u16::to_le_bytes).as_flattened());
    bytes[35] = stop;
}
