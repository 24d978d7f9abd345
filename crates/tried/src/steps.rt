//! A leg is joined, and a frame carries it.
use dxc_causes::NoMemory;
use dxc_num::{Leg, Middle, Port, Shape};
use fabric_core::{CoreEvent, CoreState, Note, core_step};
use std::test::Fail;

const LEG: Leg = Leg {
    input: Port(0),
    output: Port(1),
};

const EVENTS: [CoreEvent; 9] = [
    CoreEvent::SetIn {
        leg: LEG,
        to: Middle(0),
    },
    CoreEvent::SetMid,
    CoreEvent::SwitchOut,
    CoreEvent::Begin(0),
    CoreEvent::LoadOut {
        worker: 0,
        output: Port(1),
    },
    CoreEvent::LoadMid(0),
    CoreEvent::LoadIn(0),
    CoreEvent::End(0),
    CoreEvent::Look(0),
];

// Takes all of the events, each of which has to be allowed.
fn take_all(state: &mut CoreState) -> Result<bool, NoMemory> {
    for event in EVENTS {
        if !state.allows(event) {
            return Ok(false);
        }
        core_step(state, event)?;
    }
    Ok(true)
}

// The last note of the only worker.
fn last_note(state: &CoreState) -> Option<Note> {
    let notes = &state.workers().first()?.notes;
    if notes.len() == 0 {
        return None;
    }
    Some(notes.get(notes.len() - 1))
}

#[test]
fn a_frame_carries_a_leg(rt: HostRuntime) -> Result<(), Fail> {
    let shape = Shape::new(2, 1).ok_or("a shape")?;
    let mut state = CoreState::new(rt.alloc(), shape, 1)?;
    assert!(rt; take_all(&mut state)?);
    assert!(rt; !state.allows(CoreEvent::ClearMid), "nothing was left");
    let carried = Note::Carried {
        output: Port(1),
        number: 1,
        input: Port(0),
    };
    assert!(rt; last_note(&state) == Some(carried));
    Ok(())
}
