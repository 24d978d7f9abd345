ghost use Rattle.std.specs.Prelude.{◌≡◌, ◌≢◌, ◌<◌, ◌≤◌, ◌⊎◌, ◌↔◌, ◌^◌, ℕ, [], ◌∷◌, length, replicate, true, Some, MatchOption};
ghost use Rattle.dxc_causes.specs.Causes.{Rose, HasCause};
ghost use Rattle.dxc_num.specs.Dimensions.{ports};
ghost use Rattle.fabric_core.specs.Working.{CanBegin};
ghost use Rattle.frame_worker.specs.Lines.{Ran, askings, carrier_at, written_till};

use crate::carry::carry_frame;
use dxc_outside::{Frame, Gate, GatePlace, Lines, Put, Stopped};
use fabric_words::{Fabric, WorkerSeat};

/// Why a worker stopped carrying frames.
#[derive(Clone, Copy, PartialEq, Eq)]
pub enum LinesEnd {
    /// The lines said End.
    End,
    /// A frame could not be read: the lines' count of read faults rose.
    ReadFault,
    /// A frame was carried and could not be written: the lines' count of write faults rose.
    WriteFault,
    /// The gate stopped before a frame: its count rose.
    Stopped,
    /// 2^61 frames were carried and written, the most of one run.
    Spent,
}

/// The most frames of one run.
const FRAMES: u64 = 1 << 61;

/// Carries frame after frame of the lines until one of the five ends. No frame was carried in this seat before. Both slices have a byte for
/// each port, and their content when the call begins means nothing.
pub fn run_lines<N: Lines, G: Gate>(
    fabric: &Fabric,
    seat: &mut WorkerSeat,
    lines: &mut N,
    gate: &mut G,
    input: &mut [u8],
    output: &mut [u8],
) -> LinesEnd
    requires own { seat.old.reader.fabric ≡ fabric.now }
    requires unused { seat.old.reader.worker.frame ≡ 0 }
    requires room { (length input.old ≡ ports fabric.now.size.shape)
        × (length output.old ≡ ports fabric.now.size.shape) }
    ensures fabric { seat.new.reader.fabric ≡ seat.old.reader.fabric }
    ensures run { (n : ℕ) × Ran fabric.now.size N.told (written_till n result)
        (carrier_at (N.state lines.old) seat.old.reader.worker)
        (carrier_at (N.state lines.new) seat.new.reader.worker)
        × ((result ≡ LinesEnd.Spent) ↔ (n ≡ 2 ^ 61))
        × G.asked gate.old gate.new (replicate (askings result n) GatePlace.Frame) }
    ensures end { result ≡ LinesEnd.End → (N.state lines.new).ended ≡ true }
    ensures said_end { (N.state lines.new).ended ≡ true
        → (result ≡ LinesEnd.End) ⊎ ((N.state lines.old).ended ≡ true) }
    ensures all_read { N.told → result ≡ LinesEnd.End → (N.state lines.new).left ≡ [] }
    ensures read_fault { result ≡ LinesEnd.ReadFault
        → Rose (N.state lines.old).read_faults (N.state lines.new).read_faults }
    ensures no_read_fault { result ≢ LinesEnd.ReadFault
        → (N.state lines.new).read_faults ≡ (N.state lines.old).read_faults }
    ensures write_fault { result ≡ LinesEnd.WriteFault
        → Rose (N.state lines.old).write_faults (N.state lines.new).write_faults }
    ensures no_write_fault { result ≢ LinesEnd.WriteFault
        → (N.state lines.new).write_faults ≡ (N.state lines.old).write_faults }
    ensures stopped { result ≡ LinesEnd.Stopped → Rose (G.stops gate.old) (G.stops gate.new) }
    ensures unstopped { result ≢ LinesEnd.Stopped → G.stops gate.new ≡ G.stops gate.old }
{
    has_ports(fabric);
    for _ in 0..FRAMES {
        if let Some(end) = run_frame(fabric, seat, lines, gate, input, output) {
            return end;
        }
    }
    LinesEnd::Spent
}

// A network has ports, so a frame has bytes.
fn has_ports(fabric: &Fabric)
    ensures { 0 < ports fabric.now.size.shape }
{
    let _ = fabric.shape();
}

// Carries the next frame. Some: an end came.
fn run_frame<N: Lines, G: Gate>(
    fabric: &Fabric,
    seat: &mut WorkerSeat,
    lines: &mut N,
    gate: &mut G,
    input: &mut [u8],
    output: &mut [u8],
) -> Option<LinesEnd>
    requires own { seat.old.reader.fabric ≡ fabric.now }
    requires rests { CanBegin seat.old.reader.worker }
    requires some_ports { 0 < ports fabric.now.size.shape }
    requires room { (length input.old ≡ ports fabric.now.size.shape)
        × (length output.old ≡ ports fabric.now.size.shape) }
    ensures fabric { seat.new.reader.fabric ≡ seat.old.reader.fabric }
    ensures run { let before = carrier_at (N.state lines.old) seat.old.reader.worker in
        let after = carrier_at (N.state lines.new) seat.new.reader.worker in
        MatchOption result
        (Ran fabric.now.size N.told (written_till 1 LinesEnd.Spent) before after)
        (λ e. (e ≢ LinesEnd.Spent)
        × Ran fabric.now.size N.told (written_till 0 e) before after) }
    ensures end { result ≡ Some LinesEnd.End → (N.state lines.new).ended ≡ true }
    ensures said_end { (N.state lines.new).ended ≡ true
        → (result ≡ Some LinesEnd.End) ⊎ ((N.state lines.old).ended ≡ true) }
    ensures all_read { N.told → result ≡ Some LinesEnd.End → (N.state lines.new).left ≡ [] }
    ensures read_faults { HasCause (N.state lines.old).read_faults (N.state lines.new).read_faults
        (result ≡ Some LinesEnd.ReadFault) }
    ensures no_read_fault { result ≢ Some LinesEnd.ReadFault
        → (N.state lines.new).read_faults ≡ (N.state lines.old).read_faults }
    ensures write_faults { HasCause (N.state lines.old).write_faults
        (N.state lines.new).write_faults (result ≡ Some LinesEnd.WriteFault) }
    ensures no_write_fault { result ≢ Some LinesEnd.WriteFault
        → (N.state lines.new).write_faults ≡ (N.state lines.old).write_faults }
    ensures stopped { result ≡ Some LinesEnd.Stopped → Rose (G.stops gate.old) (G.stops gate.new) }
    ensures unstopped { result ≢ Some LinesEnd.Stopped → G.stops gate.new ≡ G.stops gate.old }
    ensures asked { G.asked gate.old gate.new (GatePlace.Frame ∷ []) }
{
    match gate.pass(GatePlace::Frame) {
        Err(Stopped) => return Some(LinesEnd::Stopped),
        Ok(()) => {}
    }
    match lines.read_frame(input) {
        Frame::Whole => {}
        Frame::End => return Some(LinesEnd::End),
        Frame::Failed => return Some(LinesEnd::ReadFault),
    }
    carry_frame(fabric, seat, input, output);
    match lines.write_frame(output) {
        Put::Took(_) => None,
        Put::Failed => Some(LinesEnd::WriteFault),
    }
}
