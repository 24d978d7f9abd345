//! The rows of what RTRV-MID and RTRV-SYS show.
ghost use Rattle.std.specs.Prelude.{◌≡◌, ◌≤◌, ◌<◌, [], ◌∷◌, IfSome, Some, filter, length, map, option_to_list};
ghost use Rattle.dxc_num.specs.Dimensions.{IsModule, IsWorking};
ghost use Rattle.dxc_model.specs.Equipment.{has_bit, modules_in};
ghost use Rattle.tl1_answer.specs.Blocks.{IsUnended, IsBegun};
ghost use Rattle.tl1_answer.specs.Texts.{middle_text as text_of_middle, module_text as text_of_module};
ghost use Rattle.xc_core.specs.Turns.{IsInventoryOf, equipped_in};
ghost use Rattle.craft_session.specs.Responses.{Adds, addition, equipment_lines, shown_lines};

use crate::program::add_program;
use crate::say::add_line;
use arrayvec::ArrayVec;
use dxc_model::equipment;
use dxc_notes::Standing;
use dxc_num::{Middle, Shape};
use dxc_outside::{Link, Sent};
use tl1_answer::{Answer, middle_text, module_text};
use tl1_command::Subject;
use xc_core::turns::Inventory;

/// Adds the row of a module of this number, from 0, where it is one of the equipped.
fn add_module<K: Link>(
    answer: &mut Answer,
    text: &mut ArrayVec<u8, 128>,
    link: &mut K,
    shape: Shape,
    equipped: u64,
    number: u16,
) -> Sent
    requires unended { IsUnended answer.old }
    requires begun { IsBegun answer.old }
    requires short { length answer.old.head ≤ 64 }
    requires inside { IsModule shape number }
    requires few { number < 64 }
    ensures filled { Adds K.told (K.state link.old) (K.state link.new)
        (addition result answer.old answer.new)
        (map text_of_module (filter (has_bit equipped) (number ∷ []))) }
    ensures hung_up { K.hung_up link.new ≡ K.hung_up link.old }
{
    if !equipment::has(equipped, number) {
        return Sent::Whole;
    }
    module_text(shape, number, text);
    add_line(answer, link, text.as_slice())
}

/// Adds the row of each equipped module, of which bit m tells for module m from 0.
fn add_modules<K: Link>(
    answer: &mut Answer,
    text: &mut ArrayVec<u8, 128>,
    link: &mut K,
    shape: Shape,
    equipped: u64,
) -> Sent
    requires unended { IsUnended answer.old }
    requires begun { IsBegun answer.old }
    requires short { length answer.old.head ≤ 64 }
    ensures filled { Adds K.told (K.state link.old) (K.state link.new)
        (addition result answer.old answer.new) (map text_of_module (modules_in shape equipped)) }
    ensures hung_up { K.hung_up link.new ≡ K.hung_up link.old }
{
    for number in 0..shape.modules() {
        match add_module(answer, text, link, shape, equipped, number) {
            Sent::Whole => {}
            Sent::Cut => return Sent::Cut,
        }
    }
    Sent::Whole
}

/// Adds the row of the middle that is out of service, if one is.
fn add_middle<K: Link>(
    answer: &mut Answer,
    text: &mut ArrayVec<u8, 128>,
    link: &mut K,
    shape: Shape,
    out: Option<Middle>,
) -> Sent
    requires unended { IsUnended answer.old }
    requires begun { IsBegun answer.old }
    requires short { length answer.old.head ≤ 64 }
    requires working { IfSome out (λ m. IsWorking shape m.0) }
    ensures filled { Adds K.told (K.state link.old) (K.state link.new)
        (addition result answer.old answer.new) (map text_of_middle (option_to_list out)) }
    ensures hung_up { K.hung_up link.new ≡ K.hung_up link.old }
{
    match out {
        Some(middle) => {
            middle_text(shape, middle, text);
            add_line(answer, link, text.as_slice())
        }
        None => Sent::Whole,
    }
}

/// Adds the rows of equipped modules, and of the middle that is out of service.
fn add_equipment<K: Link>(
    answer: &mut Answer,
    text: &mut ArrayVec<u8, 128>,
    link: &mut K,
    shape: Shape,
    inventory: Inventory,
) -> Sent
    requires unended { IsUnended answer.old }
    requires begun { IsBegun answer.old }
    requires short { length answer.old.head ≤ 64 }
    requires of_shape { IsInventoryOf shape inventory }
    ensures filled { Adds K.told (K.state link.old) (K.state link.new)
        (addition result answer.old answer.new)
        (equipment_lines (equipped_in inventory) inventory.out) }
    ensures hung_up { K.hung_up link.new ≡ K.hung_up link.old }
{
    match add_modules(answer, text, link, shape, inventory.equipped) {
        Sent::Whole => add_middle(answer, text, link, shape, inventory.out),
        Sent::Cut => Sent::Cut,
    }
}

/// Adds the rows of what is asked for: of an inventory, and of what stands of the program.
pub fn add_inventory<K: Link>(
    answer: &mut Answer,
    text: &mut ArrayVec<u8, 128>,
    link: &mut K,
    shape: Shape,
    subject: Subject,
    inventory: Inventory,
    standing: &Standing,
) -> Sent
    requires unended { IsUnended answer.old }
    requires begun { IsBegun answer.old }
    requires short { length answer.old.head ≤ 64 }
    requires of_shape { IsInventoryOf shape inventory }
    ensures filled { Adds K.told (K.state link.old) (K.state link.new)
        (addition result answer.old answer.new)
        (shown_lines subject (equipped_in inventory) inventory.out (Some standing.now)) }
    ensures hung_up { K.hung_up link.new ≡ K.hung_up link.old }
{
    match subject {
        Subject::Middle => add_middle(answer, text, link, shape, inventory.out),
        Subject::System => match add_equipment(answer, text, link, shape, inventory) {
            Sent::Whole => add_program(answer, text, link, standing),
            Sent::Cut => Sent::Cut,
        },
    }
}
