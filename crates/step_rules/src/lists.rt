// What is asked of nodes' lists, one at a time.

ghost use Rattle.std.specs.Prelude.{◌≡◌, ◌<◌, ℕ, IsTrue, length, take};
ghost use Rattle.std.specs.List.{position_or_len};
ghost use Rattle.std.specs.Option.{IsSome};
ghost use Rattle.node_versions.specs.Entries.{Versions, HasEndedPrefix, has, is_of, served, before};
ghost use Rattle.node_versions.specs.Entries.{last_done, first_open, picks_before, has_out, has_node};
ghost use Rattle.flow_model.specs.Machine.State.{ended};
ghost use Rattle.flow_model.specs.Parts.Books.{bare};
ghost use Rattle.step_rules.specs.Sights.{sight_of, list_at};
ghost use Rattle.step_rules.specs.Collecting.{shrinks};

use flow_state::Book;
use node_versions::NodeList;
use script_tree::picks::Picks;

/// What a list says of a call.
#[derive(Clone, Copy, PartialEq, Eq, Debug)]
pub struct Sight {
    /// How many entries there are.
    pub len: u32,
    /// Whether the call has an entry.
    pub has: bool,
    /// Whether the call's entry is a Mark.
    pub is_mark: bool,
    /// The version of the first Frame's call.
    pub first_open: Option<u32>,
    /// The same, where that Frame stands before the call's entry.
    pub blocked: Option<u32>,
}

/// The lists of all nodes, asked one at a time. A question goes to one list, and nothing of it stays borrowed. All lists
/// stay as they were.
pub trait Lists {
    // What the list of a node is, and how many nodes there are.
    ghost listing_of: { Self → ℕ → Versions };

    ghost nodes: { Self → ℕ };

    /// What the node's list says of a call. Takes no memory.
    fn sight(&mut self, node: u32, version: u32) -> Sight
        requires { node < nodes self.old }
        ensures result { result ≡ sight_of (listing_of self.old node).entries version }
        ensures lists { listing_of self.new ≡ listing_of self.old }
        ensures nodes { nodes self.new ≡ nodes self.old };

    /// The version of the first Frame's call in the node's list. Takes no memory.
    fn first_open(&mut self, node: u32) -> Option<u32>
        requires { node < nodes self.old }
        ensures result { result ≡ first_open (listing_of self.old node).entries }
        ensures lists { listing_of self.new ≡ listing_of self.old }
        ensures nodes { nodes self.new ≡ nodes self.old };

    /// Whether the call has an entry in the node's list that is no Frame, and no Frame stands before it. Takes no memory.
    fn served(&mut self, node: u32, version: u32) -> bool
        requires { node < nodes self.old }
        ensures result { result ≡ served (listing_of self.old node).entries version }
        ensures lists { listing_of self.new ≡ listing_of self.old }
        ensures nodes { nodes self.new ≡ nodes self.old };

    /// The node's picks before the call: those of the last Done strictly before its entry. Takes no memory.
    fn picks_before(&mut self, node: u32, version: u32) -> Picks
        requires node { node < nodes self.old }
        requires entry { IsTrue (has (listing_of self.old node).entries version) }
        requires done { IsSome (last_done (before (listing_of self.old node).entries version)) }
        ensures result { result ≡ picks_before (listing_of self.old node).entries version }
        ensures lists { listing_of self.new ≡ listing_of self.old }
        ensures nodes { nodes self.new ≡ nodes self.old };

    /// Whether the node has an out-edge to a choose node since a version. Takes no memory.
    fn has_out(&mut self, node: u32, chooser: u32, since: u32) -> bool
        requires { node < nodes self.old }
        ensures result { result ≡ has_out (listing_of self.old node).outs chooser since }
        ensures lists { listing_of self.new ≡ listing_of self.old }
        ensures nodes { nodes self.new ≡ nodes self.old };

    /// Whether the node has an out-edge to a choose node since any version. Takes no memory.
    fn has_node(&mut self, node: u32, chooser: u32) -> bool
        requires { node < nodes self.old }
        ensures result { result ≡ has_node (listing_of self.old node).outs chooser }
        ensures lists { listing_of self.new ≡ listing_of self.old }
        ensures nodes { nodes self.new ≡ nodes self.old };

    /// Whether entries of ended calls can go from the node's list. The ended calls' entries are its first ones, and one of
    /// them is Done. Takes no memory.
    fn can_collect(&mut self, node: u32, book: &Book) -> bool
        requires node { node < nodes self.old }
        requires ended { HasEndedPrefix (ended (bare book.now.book)) (listing_of self.old node).entries }
        ensures result { result ≡ shrinks book.now (listing_of self.old node).entries }
        ensures lists { listing_of self.new ≡ listing_of self.old }
        ensures nodes { nodes self.new ≡ nodes self.old };
}

/// All lists side by side, where one thread has them.
#[derive(Drop)]
pub struct AllLists<'a> {
    /// The list of each node.
    pub lists: &'a [NodeList],
}

impl Lists for AllLists<'_> {
    ghost listing_of = { λ l n. list_at l.lists.now n };

    ghost nodes = { λ l. length l.lists.now };

    fn sight(&mut self, node: u32, version: u32) -> Sight {
        sight_of(&self.lists[node as usize], version)
    }

    fn first_open(&mut self, node: u32) -> Option<u32> {
        first_open(&self.lists[node as usize])
    }

    fn served(&mut self, node: u32, version: u32) -> bool {
        self.lists[node as usize].served(version)
    }

    fn picks_before(&mut self, node: u32, version: u32) -> Picks {
        self.lists[node as usize].picks_before(version)
    }

    fn has_out(&mut self, node: u32, chooser: u32, since: u32) -> bool {
        has_out(&self.lists[node as usize], chooser, since)
    }

    fn has_node(&mut self, node: u32, chooser: u32) -> bool {
        has_node(&self.lists[node as usize], chooser)
    }

    fn can_collect(&mut self, node: u32, book: &Book) -> bool {
        can_collect(&self.lists[node as usize], book)
    }
}

/// What a list says of a call. Takes no memory.
pub fn sight_of(list: &NodeList, version: u32) -> Sight
    ensures { result ≡ sight_of list.now.entries version }
{
    list.is_kept();
    match list.entry_of(version) {
        Some(own) => sight_from(list, version, own),
        None => Sight {
            len: list.len(),
            has: false,
            is_mark: false,
            first_open: first_open(list),
            blocked: None,
        },
    }
}

// The same where the call has an entry, at this index.
fn sight_from(list: &NodeList, version: u32, own: u32) -> Sight
    requires bound { own < length list.now.entries }
    requires own { own ≡ position_or_len (is_of version) list.now.entries }
    ensures { result ≡ sight_of list.now.entries version }
{
    list.is_kept();
    Sight {
        len: list.len(),
        has: true,
        is_mark: list.get(own).state.is_mark(),
        first_open: first_open(list),
        blocked: open_below(list, own),
    }
}

// The version of the first Frame's call, where that Frame stands below an index.
fn open_below(list: &NodeList, index: u32) -> Option<u32>
    ensures { result ≡ first_open (take index list.now.entries) }
{
    match list.first_open() {
        Some(first) if first < index => Some(list.get(first).version),
        _ => None,
    }
}

// The version of the first Frame's call.
fn first_open(list: &NodeList) -> Option<u32>
    ensures { result ≡ first_open list.now.entries }
{
    match list.first_open() {
        Some(index) => Some(list.get(index).version),
        None => None,
    }
}

// Whether there is an out-edge to a node since a version.
fn has_out(list: &NodeList, chooser: u32, since: u32) -> bool
    ensures { result ≡ has_out list.now.outs chooser since }
{
    for index in 0..list.outs_len() {
        if list.out(index) == (chooser, since) {
            return true;
        }
    }
    false
}

// Whether there is an out-edge to a node since any version.
fn has_node(list: &NodeList, chooser: u32) -> bool
    ensures { result ≡ has_node list.now.outs chooser }
{
    for index in 0..list.outs_len() {
        let (node, _) = list.out(index);
        if node == chooser {
            return true;
        }
    }
    false
}

/// Whether entries of ended calls can go from a list, which is where two have ended. The ended calls' entries are its
/// first ones, and one of them is Done. Takes no memory.
pub fn can_collect(list: &NodeList, book: &Book) -> bool
    requires { HasEndedPrefix (ended (bare book.now.book)) list.now.entries }
    ensures { result ≡ shrinks book.now list.now.entries }
{
    if list.len() < 2 {
        return false;
    }
    !book.live(list.get(1).version)
}
