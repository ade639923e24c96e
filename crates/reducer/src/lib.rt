// A reducer on its own. It shares no code with the library, and it holds a term as linked cells where the library holds a
// list of nodes. The cells of all bodies come first, then a cell for each rule, whose first argument is the rule's body. Then
// there are two halves: the term lies in one of them, and an unfolding makes the next term in the other, cell by cell in the
// order in which the cells were set aside. A cell is named by its number, since there is no heap.
#![tactic(auto)]

pub mod drawn;

ghost use Rattle.std.specs.Prelude.{ℕ, ◌≡◌, ◌≤◌};

// What stands in front of a term; no file that is judged has another tag than the first three.
#[derive(Clone, Copy, PartialEq, Eq)]
enum Tag {
    Constructor,
    Nonterminal,
    Parameter,
    Other,
}

// The place of a cell, or that there is none, as a table holds it in two bytes: 0 stands for none, and no term has cell 0. With an Option
// in its place a replay takes a seventh more instructions.
#[derive(Clone, Copy, PartialEq, Eq)]
struct Place {
    cell: u16,
}

const NONE: Place = Place { cell: 0 };

impl Place {
    fn of(cell: u16) -> Place {
        Place { cell }
    }

    fn cell(self) -> Option<u16> {
        if self == NONE { None } else { Some(self.cell) }
    }
}

// A term: what stands in front and its number, its first argument, the term behind it in the same list, and a link: the cell
// that it is made from, or, while nodes are counted, the cell that waits behind it.
#[derive(Clone, Copy)]
pub struct Cell {
    tag: Tag,
    number: u16,
    first: Place,
    next: Place,
    link: Place,
}

// A cell before it is written.
pub const EMPTY: Cell = Cell {
    tag: Tag::Constructor,
    number: 0,
    first: NONE,
    next: NONE,
    link: NONE,
};

// No place of a file lies beyond this one.
const FARTHEST: usize = 65535;

// The cells of the rules begin here.
const RULES: u16 = 15500;

// The halves begin at these cells, and have room for so many cells each.
const LOW: u16 = 16000;

const HIGH: u16 = LOW + ROOM;

const ROOM: u16 = 6000;

// How many cells there are.
pub const CELLS: usize = 28000;

// The kinds of records that a replay reads, and all others.
#[derive(Clone, Copy, PartialEq, Eq)]
enum Kind {
    Rule,
    States,
    Transition,
    Path,
    Other,
}

// Where a file's transitions begin, and where its path's record does; how many rules were read, and the first cell that
// their bodies leave.
#[derive(Clone, Copy)]
pub struct Plan {
    pub moves: usize,
    pub path: usize,
    pub rules: usize,
    pub cells: usize,
}

// Where a replay stands: a term and a state.
#[derive(Clone, Copy)]
pub struct Spot {
    pub term: usize,
    pub state: usize,
}

// In how many arguments a path can go on, or that a nonterminal stands in front.
#[derive(Clone, Copy)]
pub enum Onward {
    Unfold,
    Into(usize),
}

// A path that ends where no transition is: how many letters it has, the last state, and the constructor.
#[derive(Clone, Copy)]
pub struct Refuted {
    pub letters: usize,
    pub state: usize,
    pub constructor: usize,
}

// Why a path is refused.
#[derive(Clone, Copy)]
pub enum Fault {
    Lost,
    TooLarge,
    NotStuck,
}

// Why a path is refused, and at which letter.
#[derive(Clone, Copy)]
pub struct Refusal {
    pub fault: Fault,
    pub place: usize,
}

// The number of a refusal.
impl From<Fault> for usize {
    fn from(fault: Fault) -> usize {
        match fault {
            Fault::Lost => 13,
            Fault::TooLarge => 14,
            Fault::NotStuck => 15,
        }
    }
}

// Byte at + k of a file, 0 past its end or where one of the two is past every file.
pub fn byte(file: &[u8], at: usize, k: usize) -> u8 {
    if FARTHEST < at || FARTHEST < k {
        return 0;
    }
    file.get(at + k).copied().unwrap_or(0)
}

// The two bytes at + k of a file.
pub fn word(file: &[u8], at: usize, k: usize) -> u16 {
    if FARTHEST <= k {
        return 0;
    }
    u16::from_le_bytes([byte(file, at, k), byte(file, at, k + 1)])
}

// The kind of the record at an offset.
fn kind_at(file: &[u8], at: usize) -> Kind {
    match word(file, at, 2) {
        4 => Kind::Rule,
        5 => Kind::States,
        6 => Kind::Transition,
        9 => Kind::Path,
        _ => Kind::Other,
    }
}

// The tag of the node at an offset.
fn tag_at(file: &[u8], at: usize) -> Tag {
    match byte(file, at, 0) {
        0 => Tag::Constructor,
        1 => Tag::Nonterminal,
        2 => Tag::Parameter,
        _ => Tag::Other,
    }
}

// The cell at a place; an empty one where there is none.
fn cell_at(cells: &[Cell], at: Place) -> Cell {
    let Some(cell) = at.cell() else {
        return EMPTY;
    };
    cells.get(usize::from(cell)).copied().unwrap_or(EMPTY)
}

// Changes a cell; nothing past the end.
fn change<F: FnOnce(&mut Cell)>(cells: &mut [Cell], cell: u16, how: F)
    requires { F.IsAlwaysCallable how }
{
    if let Some(changed) = cells.get_mut(usize::from(cell)) {
        how(changed);
    }
}

// The place n behind another in its list.
fn along(cells: &[Cell], list: Place, n: u16) -> Place {
    let mut at = list;
    for _ in 0..n {
        at = cell_at(cells, at).next;
    }
    at
}

// Ends a list at a place; returns what stood behind.
fn cut(cells: &mut [Cell], last: Place) -> Place {
    let rest = cell_at(cells, last).next;
    if let Some(cell) = last.cell() {
        change(cells, cell, |cell| cell.next = NONE);
    }
    rest
}

// Makes a cell of the body's node at an offset. `right` is the list of terms to the right of the node that are not yet
// arguments of a cell: the node takes its arguments off it and comes in front of the rest.
fn link_node(file: &[u8], at: usize, cells: &mut [Cell], cell: u16, right: Place) {
    let mut first = NONE;
    let mut next = right;
    if let Some(others) = byte(file, at, 3).checked_sub(1) {
        let last = along(cells, right, u16::from(others));
        first = right;
        next = cut(cells, last);
    }
    let node = Cell {
        tag: tag_at(file, at),
        number: word(file, at, 1),
        first,
        next,
        link: NONE,
    };
    change(cells, cell, |place| *place = node);
}

// Makes the cells of a body of `nodes` nodes, from the last node to the first, which gets the given cell.
fn link(file: &[u8], at: usize, nodes: u16, cells: &mut [Cell], place: u16)
    requires { (at ≤ 65535) × (nodes ≤ 16383) × (place ≤ 15000) }
{
    let mut right = NONE;
    for left in (0..nodes).rev() {
        link_node(file, at + 4 * usize::from(left), cells, place + left, right);
        right = Place::of(place + left);
    }
}

// The body in a rule's record, linked behind those before it.
fn enter_rule(file: &[u8], at: usize, cells: &mut [Cell], plan: Plan) -> Plan
    requires { at ≤ 60000 }
    ensures rules { plan.rules ≤ 256 → result.rules ≤ 256 }
    ensures cells { plan.cells ≤ 65535 → result.cells ≤ 65535 }
{
    if 255 < plan.rules || 15000 < plan.cells {
        return plan;
    }
    let place = plan.cells as u16;
    let nodes = word(file, at, 0) / 4;
    if at + 4 <= 60000 {
        link(file, at + 4, nodes, cells, place);
    }
    change(cells, RULES + plan.rules as u16, |cell| {
        cell.first = Place::of(place);
    });
    Plan {
        rules: plan.rules + 1,
        cells: plan.cells + usize::from(nodes),
        ..plan
    }
}

// What the record at an offset adds to a plan.
fn enter(file: &[u8], at: usize, cells: &mut [Cell], plan: Plan) -> Plan
    requires { at ≤ 60000 }
    ensures rules { plan.rules ≤ 256 → result.rules ≤ 256 }
    ensures cells { plan.cells ≤ 65535 → result.cells ≤ 65535 }
{
    match kind_at(file, at) {
        Kind::Rule => enter_rule(file, at, cells, plan),
        Kind::States => Plan {
            moves: at + 5,
            ..plan
        },
        Kind::Path => Plan { path: at, ..plan },
        Kind::Transition | Kind::Other => plan,
    }
}

// The plan of a file that is a path case; the cells of its bodies and rules are written anew. It counts 256 rules at most, and the first
// cell that their bodies leave has a number of two bytes.
pub fn load(file: &[u8], cells: &mut [Cell]) -> Plan
    ensures rules { result.rules ≤ 256 }
    ensures cells { result.cells ≤ 65535 }
{
    let mut plan = Plan {
        moves: 0,
        path: 0,
        rules: 0,
        cells: 1,
    };
    let mut at = 0;
    while at < file.len() && at <= 60000 {
        plan = enter(file, at, cells, plan);
        at = at + 4 + usize::from(word(file, at, 0));
    }
    plan
}

// Sets cells aside, from `top` on and before `end`, one for each cell of a list; returns where they end.
fn extend(cells: &mut [Cell], list: Place, top: u16, end: u16) -> u16 {
    let mut from = list;
    for at in top..end {
        if from == NONE {
            return at;
        }
        change(cells, at, |cell| {
            cell.link = from;
            cell.next = Place::of(at + 1);
        });
        from = cell_at(cells, from).next;
    }
    end
}

// Gives a cell the head of a term, and arguments: the cells from `top` to `middle`, which are set aside already, and
// behind them cells for a list of its own; returns where these end.
fn build(
    cells: &mut [Cell],
    cell: u16,
    head: Cell,
    own: Place,
    top: u16,
    middle: u16,
    end: u16,
) -> u16 {
    let last = extend(cells, own, middle, end);
    let first = if top < last { Place::of(top) } else { NONE };
    change(cells, cell, |cell| {
        cell.tag = head.tag;
        cell.number = head.number;
        cell.first = first;
    });
    if top < last {
        change(cells, last - 1, |cell| cell.next = NONE);
    }
    last
}

// Fills a cell that was set aside by the one that it is made from, and sets cells aside for its arguments from `top` on. A
// parameter's cell gets the head and the arguments of the term that stands for it in `list`, the arguments of the
// unfolded term, and then the parameter's own arguments.
fn fill(cells: &mut [Cell], cell: u16, list: Place, top: u16, end: u16) -> u16 {
    let source = cell_at(cells, cell_at(cells, Place::of(cell)).link);
    if source.tag != Tag::Parameter {
        return build(cells, cell, source, source.first, top, top, end);
    }
    let head = cell_at(cells, along(cells, list, source.number));
    let middle = extend(cells, head.first, top, end);
    build(cells, cell, head, source.first, top, middle, end)
}

// Where the half begins in which a term does not lie.
fn other_half(term: u16) -> u16
    ensures { result ≤ 22000 }
{
    if term < HIGH { HIGH } else { LOW }
}

// Makes a body's term with the arguments of a term for its parameters, in the other half, if there is room. It stays a function of its
// own, as `size` does: within `step` each turn of its loop would make the answers of `step` ready too.
#[inline(never)]
fn unfold(cells: &mut [Cell], term: u16, body: Place) -> Option<u16> {
    let list = cell_at(cells, Place::of(term)).first;
    let base = other_half(term);
    change(cells, base, |cell| {
        cell.link = body;
        cell.next = NONE;
    });
    let end = base + ROOM;
    let mut top = base + 1;
    for at in base..end {
        if top <= at {
            return Some(base);
        }
        top = fill(cells, at, list, top, end);
    }
    None
}

// Puts a place, if it is one, in front of those that wait.
fn push(cells: &mut [Cell], waiting: Place, at: Place) -> Place {
    let Some(cell) = at.cell() else {
        return waiting;
    };
    change(cells, cell, |cell| cell.link = waiting);
    at
}

// The nodes of a term that is no argument, counted as a tree up to 4,097.
#[inline(never)]
fn size(cells: &mut [Cell], term: u16) -> usize {
    let mut waiting = push(cells, NONE, Place::of(term));
    for nodes in 0..4097 {
        if waiting == NONE {
            return nodes;
        }
        let top = cell_at(cells, waiting);
        let rest = push(cells, top.link, top.next);
        waiting = push(cells, rest, top.first);
    }
    4097
}

// Whether the record at an offset is the transition from a state for a constructor.
fn moves_by(file: &[u8], at: usize, state: usize, constructor: u16) -> bool {
    kind_at(file, at) == Kind::Transition
        && usize::from(byte(file, at, 4)) == state
        && u16::from(byte(file, at, 5)) == constructor
}

// The record of the transition from a state for a constructor, if there is one; none at the start of a file, where no plan has it.
fn transition(file: &[u8], plan: Plan, state: usize, constructor: u16) -> Option<usize> {
    let mut at = plan.moves;
    while at < plan.path && at <= 60000 {
        if moves_by(file, at, state, constructor) {
            return (at != 0).then_some(at);
        }
        at = at + 4 + usize::from(word(file, at, 0));
    }
    None
}

// The cell of a spot's term; an empty one where there is none.
fn term_of(cells: &[Cell], spot: Spot) -> Cell {
    cell_at(cells, u16::try_from(spot.term).map_or(NONE, Place::of))
}

// The start symbol, in state 0.
pub fn start(cells: &mut [Cell]) -> Spot {
    let symbol = Cell {
        tag: Tag::Nonterminal,
        ..EMPTY
    };
    change(cells, LOW, |cell| *cell = symbol);
    Spot {
        term: usize::from(LOW),
        state: 0,
    }
}

// Letter 0.
fn reduce(cells: &mut [Cell], spot: Spot) -> Result<Spot, Fault> {
    let Ok(cell) = u16::try_from(spot.term) else {
        return Err(Fault::Lost);
    };
    let term = cell_at(cells, Place::of(cell));
    if term.tag != Tag::Nonterminal {
        return Err(Fault::Lost);
    }
    let rule = cell_at(cells, Place::of(RULES.saturating_add(term.number)));
    let made = unfold(cells, cell, rule.first).ok_or(Fault::TooLarge)?;
    if 4096 < size(cells, made) {
        return Err(Fault::TooLarge);
    }
    Ok(Spot {
        term: usize::from(made),
        ..spot
    })
}

// A letter from 1, which leads into an argument.
fn descend(file: &[u8], plan: Plan, cells: &[Cell], spot: Spot, n: u8) -> Result<Spot, Fault> {
    let term = term_of(cells, spot);
    if term.tag != Tag::Constructor {
        return Err(Fault::Lost);
    }
    let argument = along(cells, term.first, u16::from(n));
    let argument = argument.cell().ok_or(Fault::Lost)?;
    let at = transition(file, plan, spot.state, term.number).ok_or(Fault::Lost)?;
    Ok(Spot {
        term: usize::from(argument),
        state: usize::from(byte(file, at, usize::from(n) + 6)),
    })
}

// The spot after a letter.
pub fn step(
    file: &[u8],
    plan: Plan,
    cells: &mut [Cell],
    spot: Spot,
    letter: usize,
) -> Result<Spot, Fault> {
    match u8::try_from(letter) {
        Ok(0) => reduce(cells, spot),
        Ok(i) => descend(file, plan, cells, spot, i - 1),
        Err(_) => Err(Fault::Lost),
    }
}

// How a path can go on: in no argument at a constructor without a transition, and in no more than four.
pub fn ways(file: &[u8], plan: Plan, cells: &[Cell], spot: Spot) -> Onward
    ensures { (n : ℕ) → result ≡ Onward.Into n → n ≤ 4 }
{
    let term = term_of(cells, spot);
    if term.tag != Tag::Constructor {
        return Onward::Unfold;
    }
    if transition(file, plan, spot.state, term.number).is_none() {
        return Onward::Into(0);
    }
    let mut at = term.first;
    for n in 0..4 {
        if at == NONE {
            return Onward::Into(n);
        }
        at = cell_at(cells, at).next;
    }
    Onward::Into(4)
}

// How a path of `letters` letters ends at a spot.
fn finish(
    file: &[u8],
    plan: Plan,
    cells: &[Cell],
    spot: Spot,
    letters: usize,
) -> Result<Refuted, Refusal> {
    let term = term_of(cells, spot);
    if term.tag != Tag::Constructor || transition(file, plan, spot.state, term.number).is_some() {
        return Err(Refusal {
            fault: Fault::NotStuck,
            place: letters,
        });
    }
    Ok(Refuted {
        letters,
        state: spot.state,
        constructor: usize::from(term.number),
    })
}

// The answer to a file that is a path case. What the cells held before does not matter.
pub fn replay(file: &[u8], cells: &mut [Cell]) -> Result<Refuted, Refusal> {
    let plan = load(file, cells);
    let letters = usize::from(word(file, plan.path, 0));
    let mut spot = start(cells);
    for i in 0..letters {
        let letter = usize::from(byte(file, plan.path, i + 4));
        spot = step(file, plan, cells, spot, letter).map_err(|fault| Refusal { fault, place: i })?;
    }
    finish(file, plan, cells, spot, letters)
}
