// The limits of a file, the tables that hold what it says, and where each part of a table begins. No other file of the
// library has these numbers in digits; specs/layout/Layout.antt has them for the proofs.

// The kind table's last column, and what a payload may hold: the arguments of a sort or a head, those of a constructor, the
// members of an arrow; the nodes, bytes and levels of a body; the bytes of a type; the nodes of the term that a replay holds.
pub const MAX_FILE: usize = 60000;

pub const MAX_SORTS: usize = 64;

pub const MAX_CONSTRUCTORS: usize = 32;

pub const MAX_NONTERMINALS: usize = 256;

pub const MAX_STATES: usize = 16;

pub const MAX_TRANSITIONS: usize = 512;

pub const MAX_TYPES: usize = 1024;

pub const MAX_BINDINGS: usize = 1024;

pub const MAX_LETTERS: usize = 4096;

pub const MAX_ARGUMENTS: usize = 8;

pub const MAX_ARITY: usize = 4;

pub const MAX_MEMBERS: usize = 16;

pub const MAX_NODES: usize = 256;

pub const MAX_BODY: usize = MAX_NODES * NODE;

pub const MAX_DEPTH: usize = 64;

pub const MAX_TYPE: usize = 2 + 2 * MAX_MEMBERS;

pub const MAX_TERM: usize = 4096;

// The last number that an entry of a kind may have.
pub const LAST_NONTERMINAL: usize = MAX_NONTERMINALS - 1;

// The bytes of a node of a body.
pub const NODE: usize = 4;

// The counts of a file's records stand by the numbers of their kinds, from 1 on.
pub const KINDS: usize = 10;

// The index: where the entries of each kind begin; the last type of each hash, and the type before each one of its hash; where the
// transition of each state and constructor lies.
pub const SORTS_AT: usize = 0;

pub const CONSTRUCTORS_AT: usize = SORTS_AT + MAX_SORTS;

pub const NONTERMINALS_AT: usize = CONSTRUCTORS_AT + MAX_CONSTRUCTORS;

pub const RULES_AT: usize = NONTERMINALS_AT + MAX_NONTERMINALS;

pub const TRANSITIONS_AT: usize = RULES_AT + MAX_NONTERMINALS;

pub const TYPES_AT: usize = TRANSITIONS_AT + MAX_TRANSITIONS;

pub const BINDINGS_AT: usize = TYPES_AT + MAX_TYPES;

pub const STATES_AT: usize = BINDINGS_AT + MAX_BINDINGS;

pub const PATH_AT: usize = STATES_AT + 1;

pub const HASHES_AT: usize = PATH_AT + 1;

pub const LINKS_AT: usize = HASHES_AT + HASHES;

pub const PLACES_AT: usize = LINKS_AT + MAX_TYPES;

pub const INDEX: usize = PLACES_AT + MAX_TRANSITIONS;

pub type Index = [u16; INDEX];

// The hashes of types, and the largest.
pub const HASHES: usize = 256;

pub const LAST_HASH: usize = HASHES - 1;

// The other tables: the argument counts of the sorts, sort 0 first; the counts of the kinds; the end of each subterm, where a
// file has no more nodes than a quarter of its bytes; a number for each nonterminal, or for each node of a body, and one more.
pub const ALL_SORTS: usize = MAX_SORTS + 1;

pub type SortTable = [u16; ALL_SORTS];

pub type Counts = [u16; KINDS];

pub const ENDS: usize = MAX_FILE / NODE;

pub const MOST_NODES_AT: usize = MAX_NONTERMINALS;

pub const ROWS: usize = MAX_NONTERMINALS + 1;

pub type Rows = [u16; ROWS];

// The rooms for the rows of fewer types than all, in the fit of types to sorts: how many types each has room for.
pub const FEW_TYPES: usize = 64;

pub const SOME_TYPES: usize = 320;

// A set of sorts for each sort, as a word with bit i for sort i + 1.
pub type SortMasks = [u64; ALL_SORTS];

// The codes of sorts: the number of a listed one; for the sort of a constructor that is not listed, UNLISTED and how many
// arguments it has.
pub const UNLISTED: usize = 1000;

pub const UNLISTED_1: usize = UNLISTED + 1;

// The goals of a check: types and states.
pub const MAX_GOALS: usize = MAX_TYPES + MAX_STATES;

// What stands for no number: no result, no member, no target, no type.
pub const NONE: usize = 65535;

// What stands in a row of the transition table for no transition.
pub const NO_TARGET: u8 = 255;

// The transition table: for each state and constructor a row of targets.
pub type Row = [u8; MAX_ARITY];

pub type Transitions = [[Row; MAX_CONSTRUCTORS]; MAX_STATES];

// The numbers of a test: the type of the binding as a goal; where the nodes of its body begin; the binding, which owns what is noted; the
// number of the test; how many cells of answers a node has, how many words a set of bindings; how many bindings there are; where users
// and answers begin.
pub const TEST_OWN: usize = 0;

pub const TEST_BASE: usize = 1;

pub const TEST_BINDING: usize = 2;

pub const TEST_STAMP: usize = 3;

pub const TEST_WIDE: usize = 4;

pub const TEST_WORDS: usize = 5;

pub const TEST_BINDINGS: usize = 6;

pub const TEST_USERS: usize = 7;

pub const TEST_ANSWERS: usize = 8;

// What a check reads begins with the numbers of the test; the sets of candidates stand behind so many cells.
pub const TEST_CELLS: usize = 16;

// A closure as a number: the nodes of its term, the place of its node, the count of its frame, the block of its frame.
pub const NODE_UNITS: usize = 8192;

pub const PLACE_UNITS: usize = 131072;

pub const COUNT_UNITS: usize = 16;

pub const BLOCK_UNITS: usize = 1048576;

pub const COUNT_UNIT: usize = NODE_UNITS * PLACE_UNITS;

pub const BLOCK_UNIT: usize = COUNT_UNIT * COUNT_UNITS;

// The cells of a block; up to how many letters a path gets fewer cells than the longest; and the cells of each: a block for each
// letter, and one for the start symbol.
pub const BLOCK: usize = MAX_ARGUMENTS;

pub const TINY_PATH: usize = 16;

pub const SHORT_PATH: usize = 64;

pub const LONG_PATH: usize = 512;

pub const TINY_CELLS: usize = (TINY_PATH + 1) * BLOCK;

pub const SHORT_CELLS: usize = (SHORT_PATH + 1) * BLOCK;

pub const LONG_CELLS: usize = (LONG_PATH + 1) * BLOCK;

pub const ALL_CELLS: usize = (MAX_LETTERS + 1) * BLOCK;

// The bits of a word.
pub const WORD: usize = 32;

// What a test remembers of a node for 32 goals: three words. The most such cells a node has, and the answers of a test.
pub const CELL: usize = 3;

pub const MAX_CELLS: usize = (MAX_GOALS + WORD - 1) / WORD;

pub const ANSWERS: usize = MAX_NODES * MAX_CELLS * CELL;

// The flat table of a check. Of the automaton: by constructor and state the targets, four bits each; by constructor the states that
// have a transition, as bits; by constructor how many arguments it has. Then by nonterminal its first binding, and one entry more.
pub const TARGETS_AT: usize = 0;

pub const PRESENT_AT: usize = TARGETS_AT + MAX_CONSTRUCTORS * MAX_STATES;

pub const ARITIES_AT: usize = PRESENT_AT + MAX_CONSTRUCTORS;

pub const GROUPS_AT: usize = ARITIES_AT + MAX_CONSTRUCTORS;

// Then the nonterminal of each binding and its type as a goal, two cells for each that a file may have.
pub const PAIRS_AT: usize = GROUPS_AT + ROWS;

pub const SYMBOL: usize = 0;

pub const OWN: usize = 1;

pub const PAIR_CELLS: usize = 2;

// Then rows, by number. A goal is a state by its number, or an arrow by the number of its type behind the states. Row g has of goal g
// the result, the final state, the states among its members as bits, how many members are arrows, how many there are; the goal that
// is the type with that row; the word in which all members of goal g stand, and their bits there in two halves; at the end the members
// of goal g.
pub const ROWS_AT: usize = PAIRS_AT + MAX_BINDINGS * PAIR_CELLS;

pub const RESULT: usize = 0;

pub const END: usize = 1;

pub const MEMBER_STATES: usize = 2;

pub const ARROWS: usize = 3;

pub const MANY: usize = 4;

pub const GOAL: usize = 5;

pub const NEAR: usize = 6;

pub const LOW: usize = 7;

pub const HIGH: usize = 8;

pub const MEMBERS: usize = 9;

pub const ROW_CELLS: usize = MEMBERS + MAX_MEMBERS;

// Rows are asked for by a number modulo ROW_LIMIT, which no number of a row reaches; nodes by a place modulo PLACE_LIMIT likewise.
pub const ROW_LIMIT: usize = 2048;

pub const PLACE_LIMIT: usize = 131072;

// Then the nodes, three cells each: the tag, and 4 for each argument; the number; the node behind.
pub const NUMBER: usize = 1;

pub const NEXT: usize = 2;

pub const NODE_CELLS: usize = 3;

// A set of bindings has fewer words than these: a number of words is taken modulo it.
pub const WORDS_LIMIT: usize = 64;

// The words of a set of bindings.
pub const BINDING_WORDS: usize = MAX_BINDINGS / WORD;

// No number of an entry of two bytes reaches this.
pub const ENTRY_LIMIT: usize = 65536;

// What is written of a binding for its explanation: its round, the node, the goal, and a cell that is not used yet.
pub const REASON_ROUND: usize = 0;

pub const REASON_NODE: usize = REASON_ROUND + 1;

pub const REASON_GOAL: usize = REASON_NODE + 1;

pub const REASON_REST: usize = REASON_GOAL + 1;

pub const REASON_CELLS: usize = REASON_REST + 1;

// The cells for all bindings.
pub const REASONS: usize = MAX_BINDINGS * REASON_CELLS;

pub type Reasons = [u16; REASONS];

// The largest number of a test.
pub const LAST_TEST: u32 = 4294967295;

// The tables of a binding case at the limits: the flat table, the sets of candidates, the users with a brief each, the hints.
pub const TABLE: usize = ROWS_AT + MAX_GOALS * ROW_CELLS + ENDS * NODE_CELLS;

pub const SETS: usize = MAX_GOALS * BINDING_WORDS;

pub const USERS: usize = MAX_BINDINGS * (BINDING_WORDS + 1);

pub const HINTS: usize = 8192;

// The hints of nodes and goals come first, then those of nonterminals and goals, whose numbers are spread by a stride.
pub const HEAD_HINTS_AT: usize = HINTS / 2;

pub const HINT_STRIDE: usize = 61;

// The hints of a frame for few nodes, in halves likewise.
pub const FEW_HINTS: usize = 2048;

pub const FEW_HEAD_HINTS_AT: usize = FEW_HINTS / 2;

// The frames for few types have no hints.
pub const NO_HINTS: usize = 0;

// The tiny frame of a binding case: how many nodes, types and bindings it has room for, and from these its tables as those at the
// limits. It has a row for each goal. A test remembers answers for all nodes that a body may have, and for all
// goals.
pub const TINY_NODES: usize = 96;

pub const TINY_TYPES: usize = 32;

pub const TINY_BINDINGS: usize = 32;

pub const TINY_GOALS: usize = TINY_TYPES + MAX_STATES;

pub const TINY_WORDS: usize = (TINY_BINDINGS + WORD - 1) / WORD;

pub const TINY_TABLE: usize = ROWS_AT + TINY_GOALS * ROW_CELLS + TINY_NODES * NODE_CELLS;

pub const TINY_SETS: usize = TINY_GOALS * TINY_WORDS;

pub const TINY_USERS: usize = TINY_BINDINGS * (TINY_WORDS + 1);

pub const TINY_ANSWERS: usize = TINY_NODES * ((TINY_GOALS + WORD - 1) / WORD) * CELL;

// The small frame, likewise.
pub const SMALL_NODES: usize = 512;

pub const SMALL_TYPES: usize = 64;

pub const SMALL_BINDINGS: usize = 96;

pub const SMALL_GOALS: usize = SMALL_TYPES + MAX_STATES;

pub const SMALL_WORDS: usize = (SMALL_BINDINGS + WORD - 1) / WORD;

pub const SMALL_TABLE: usize = ROWS_AT + SMALL_GOALS * ROW_CELLS + SMALL_NODES * NODE_CELLS;

pub const SMALL_SETS: usize = SMALL_GOALS * SMALL_WORDS;

pub const SMALL_USERS: usize = SMALL_BINDINGS * (SMALL_WORDS + 1);

pub const SMALL_ANSWERS: usize = MAX_NODES * ((SMALL_GOALS + WORD - 1) / WORD) * CELL;

// The modest frame, likewise: for more nodes and bindings, of as few types as the tiny one.
pub const MODEST_NODES: usize = 1024;

pub const MODEST_TYPES: usize = 32;

pub const MODEST_BINDINGS: usize = 224;

pub const MODEST_GOALS: usize = MODEST_TYPES + MAX_STATES;

pub const MODEST_WORDS: usize = (MODEST_BINDINGS + WORD - 1) / WORD;

pub const MODEST_TABLE: usize = ROWS_AT + MODEST_GOALS * ROW_CELLS + MODEST_NODES * NODE_CELLS;

pub const MODEST_SETS: usize = MODEST_GOALS * MODEST_WORDS;

pub const MODEST_USERS: usize = MODEST_BINDINGS * (MODEST_WORDS + 1);

pub const MODEST_ANSWERS: usize = MAX_NODES * ((MODEST_GOALS + WORD - 1) / WORD) * CELL;

// The plain frame, likewise: for many bindings of few types.
pub const PLAIN_NODES: usize = 2048;

pub const PLAIN_TYPES: usize = 64;

pub const PLAIN_BINDINGS: usize = 320;

pub const PLAIN_GOALS: usize = PLAIN_TYPES + MAX_STATES;

pub const PLAIN_WORDS: usize = (PLAIN_BINDINGS + WORD - 1) / WORD;

pub const PLAIN_TABLE: usize = ROWS_AT + PLAIN_GOALS * ROW_CELLS + PLAIN_NODES * NODE_CELLS;

pub const PLAIN_SETS: usize = PLAIN_GOALS * PLAIN_WORDS;

pub const PLAIN_USERS: usize = PLAIN_BINDINGS * (PLAIN_WORDS + 1);

pub const PLAIN_ANSWERS: usize = MAX_NODES * ((PLAIN_GOALS + WORD - 1) / WORD) * CELL;

// The broad frame, likewise: for many types and bindings of few nodes; it has few hints.
pub const BROAD_NODES: usize = 128;

pub const BROAD_TYPES: usize = 320;

pub const BROAD_BINDINGS: usize = 320;

pub const BROAD_GOALS: usize = BROAD_TYPES + MAX_STATES;

pub const BROAD_WORDS: usize = (BROAD_BINDINGS + WORD - 1) / WORD;

pub const BROAD_TABLE: usize = ROWS_AT + BROAD_GOALS * ROW_CELLS + BROAD_NODES * NODE_CELLS;

pub const BROAD_SETS: usize = BROAD_GOALS * BROAD_WORDS;

pub const BROAD_USERS: usize = BROAD_BINDINGS * (BROAD_WORDS + 1);

pub const BROAD_ANSWERS: usize = BROAD_NODES * ((BROAD_GOALS + WORD - 1) / WORD) * CELL;

// The middle frame, likewise; it has hints.
pub const MIDDLE_NODES: usize = 2048;

pub const MIDDLE_TYPES: usize = 320;

pub const MIDDLE_BINDINGS: usize = 320;

pub const MIDDLE_GOALS: usize = MIDDLE_TYPES + MAX_STATES;

pub const MIDDLE_WORDS: usize = (MIDDLE_BINDINGS + WORD - 1) / WORD;

pub const MIDDLE_TABLE: usize = ROWS_AT + MIDDLE_GOALS * ROW_CELLS + MIDDLE_NODES * NODE_CELLS;

pub const MIDDLE_SETS: usize = MIDDLE_GOALS * MIDDLE_WORDS;

pub const MIDDLE_USERS: usize = MIDDLE_BINDINGS * (MIDDLE_WORDS + 1);

pub const MIDDLE_ANSWERS: usize = MAX_NODES * ((MIDDLE_GOALS + WORD - 1) / WORD) * CELL;

// The wide frame, likewise: for the most bindings that a file may have, of few types, without hints.
pub const WIDE_NODES: usize = 4096;

pub const WIDE_TYPES: usize = 64;

pub const WIDE_BINDINGS: usize = 1024;

pub const WIDE_GOALS: usize = WIDE_TYPES + MAX_STATES;

pub const WIDE_WORDS: usize = (WIDE_BINDINGS + WORD - 1) / WORD;

pub const WIDE_TABLE: usize = ROWS_AT + WIDE_GOALS * ROW_CELLS + WIDE_NODES * NODE_CELLS;

pub const WIDE_SETS: usize = WIDE_GOALS * WIDE_WORDS;

pub const WIDE_USERS: usize = WIDE_BINDINGS * (WIDE_WORDS + 1);

pub const WIDE_ANSWERS: usize = MAX_NODES * ((WIDE_GOALS + WORD - 1) / WORD) * CELL;

// The ends of subterms of a tiny file: by its length, how many nodes it may have.
pub const TINY_FILE: usize = 384;

pub const TINY_ENDS: usize = TINY_FILE / NODE;

// Those of a small file, likewise.
pub const SMALL_FILE: usize = 1024;

pub const SMALL_ENDS: usize = SMALL_FILE / NODE;

// Those of a file of middle length, likewise.
pub const MIDDLE_FILE: usize = 2048;

pub const MIDDLE_ENDS: usize = MIDDLE_FILE / NODE;

// Those of a longer file, likewise.
pub const LONG_FILE: usize = 8192;

pub const LONG_ENDS: usize = LONG_FILE / NODE;
