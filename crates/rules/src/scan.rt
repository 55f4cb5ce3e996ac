// An expression, item by item.
ghost use Rattle.std.specs.Prelude.{◌≡◌, ◌≤◌, drop};
ghost use Rattle.rules.specs.Bounds.{most_entries, most_places};
ghost use Rattle.rules.specs.Tables.{locals_in};
ghost use Rattle.rules.specs.Values.{made, globals_of};
ghost use Rattle.rules.specs.Scan.{node_of};
ghost use Rattle.rules.specs.Post.{operands_in, Room, Scans};

use crate::calls::call;
use crate::names::Name;
use crate::nodes::{Made, TreeItem, element, item_at, join, leaf, mark, name, strict, unary};
use crate::operands::{charge, item as put_item, push, top};
use crate::program::Program;
use crate::{Broken, Spot};
use flat::item::Kind;
use grammar::tree::{Item, ValueType};

// What an item of the tree becomes, by its kind, where so many locals are visible.
pub fn node(
    program: &Program,
    locals: &[u32],
    visible: usize,
    types: &[u32],
    starts: &[u32],
    h: usize,
    this: TreeItem,
) -> Option<Made>
    requires { (visible ≤ most_entries) × (h ≤ most_places) }
    ensures { made result ≡
        node_of program.now.text.now (globals_of program.now) (locals_in program.now.text.now locals.now visible)
        this.kind this.place this.a this.b this.here (operands_in types.now starts.now h) }
{
    let y = top(types, starts, h, 0);
    let x = top(types, starts, h, 1);
    let Ok(kind) = Item::try_from(this.kind) else {
        return None;
    };
    let a = this.a;
    let named = Name {
        place: this.place,
        length: a,
    };
    match kind {
        Item::Number => Some(leaf(ValueType::Int, this.here, Kind::Number, a)),
        Item::Name => name(program.text, locals, visible, named, this.here),
        Item::Element => element(program, named, y),
        Item::Call => call(program, types, starts, h, this),
        Item::Unary => unary(a, y),
        Item::Strict => strict(a, x, y),
        Item::And => Some(mark(Kind::And, a, y)),
        Item::Or => Some(mark(Kind::Or, a, y)),
        Item::Join => join(x, y),
        Item::Truth => Some(leaf(ValueType::Bool, this.here, Kind::Number, a)),
    }
}

// The n items of the tree from here on, and the core's; how many operands they leave.
pub fn scan<R: Copy>(
    program: &Program,
    locals: &[u32],
    types: &mut [u32],
    starts: &mut [u32],
    core: &mut [u32],
    spot: Spot<R>,
    n: u32,
) -> Result<usize, Broken>
    requires { Room program.now.tree.now spot.scope.visible types.old starts.old core.old spot.tree spot.core }
    ensures { Scans program.now.text.now (globals_of program.now) (locals_in program.now.text.now locals.now spot.scope.visible)
        n (drop spot.tree program.now.tree.now) spot.core core.old result types.new starts.new core.new }
{
    let mut h: usize = 0;
    for i in 0..n {
        let at = spot.tree + 4 * i as usize;
        if program.tree.len() < at + 4 {
            return Err(Broken(0));
        }
        let this = item_at(program.tree, at, 4 * i);
        let Some(m) = node(program, locals, spot.scope.visible, types, starts, h, this) else {
            return Err(Broken(this.place as usize));
        };
        h = push(types, starts, h, m.takes, m.gives);
        put_item(core, spot.core + 4 * i as usize, m.kind, m.a, m.b);
        charge(core, spot.core, 4 * i + 4, m.gives.start, m.begins);
    }
    Ok(h)
}
