//! Elements in an order in which each link goes forward.
ghost use Rattle.std.specs.Prelude.{◌≡◌, ◌<◌, ◌↔◌, ◌+◌, ◌^◌, ◌++◌, [], All, true, false, length, filter, IfOk, IsTrue, OnOk, OnErr, vec_len};
ghost use Rattle.graph_order.specs.Marks.{is_chosen};

use crate::link::Link;
use crate::marks::reached;
use gst_value::OutOfMemory;
use std::alloc::Global;

/// What comes of a link.
#[derive(Clone, Copy, Debug, PartialEq, Eq)]
pub enum Linking {
    /// It is made.
    Linked,
    /// It would close a loop: a way leads back already.
    Loops,
}

/// Elements, numbered from 0 on, with all links that were ever made between them, in an order in which each of
/// these goes forward.
#[derive(Drop)]
pub struct Order {
    forward: Vec<u32>,
    links: Vec<Link>,
    ghost few: { vec_len forward < 2 ^ 32 },
    ghost from: { All (λ link. link.from < vec_len forward) links.items },
    ghost to: { All (λ link. link.to < vec_len forward) links.items },
}

impl Order {
    ghost use Rattle.graph_order.specs.Forward.{IsForward, AfterLink, AfterOneLink, HasRoom, links_of, forward_of, count_of};
    ghost use Rattle.graph_order.specs.Links.{IsLink, Way};
    ghost use Rattle.graph_order.specs.declared.order.Linking.TheVariants as linkings;

    /// No elements. Takes no memory.
    pub fn new(alloc: Global) -> Order
        ensures count { count_of result ≡ 0 }
        ensures links { links_of result ≡ [] }
        ensures forward { IsForward result }
    {
        Order {
            forward: Vec::new(alloc),
            links: Vec::new(alloc),
        }
    }

    /// Another element, behind the others. Its number is given.
    pub fn add(&mut self) -> Result<u32, OutOfMemory>
        requires { count_of self.old + 1 < 2 ^ 32 }
        ensures number { IfOk result (λ number. number ≡ count_of self.old) }
        ensures count { OnOk result (count_of self.new ≡ count_of self.old + 1) }
        ensures links { links_of self.new ≡ links_of self.old }
        ensures forward { IsForward self.old → IsForward self.new }
        ensures stays { OnErr result (forward_of self.new ≡ forward_of self.old) }
    {
        let number = self.forward.len() as u32;
        self.forward.push(number)?;
        Ok(number)
    }

    /// Takes room for another element. Nothing else changes.
    pub fn make_room(&mut self) -> Result<(), OutOfMemory>
        ensures room { OnOk result (HasRoom self.new) }
        ensures same { links_of self.new ≡ links_of self.old }
        ensures forward { forward_of self.new ≡ forward_of self.old }
    {
        self.forward.reserve(1)?;
        Ok(())
    }

    /// Another element, behind the others, into room that was made before. Its number is given.
    pub fn add_reserved(&mut self) -> u32
        requires few { count_of self.old + 1 < 2 ^ 32 }
        requires room { HasRoom self.old }
        ensures number { result ≡ count_of self.old }
        ensures count { count_of self.new ≡ count_of self.old + 1 }
        ensures links { links_of self.new ≡ links_of self.old }
        ensures forward { IsForward self.old → IsForward self.new }
    {
        let number = self.forward.len() as u32;
        self.forward.push_reserved(number);
        number
    }

    /// Whether a way leads from one element to another over links that were ever made.
    pub fn leads(&self, alloc: Global, from: u32, to: u32) -> Result<bool, OutOfMemory>
        requires from { from < count_of self.now }
        requires to { to < count_of self.now }
        ensures { IfOk result (λ leads. IsTrue leads ↔ Way (links_of self.now) from to) }
    {
        let marks = reached(alloc, self.forward.len(), &self.links, from)?;
        Ok(marks[to as usize])
    }

    /// A link from one element to another, unless it would close a loop with all links ever made. The elements to
    /// which a way leads from its end then stand behind all others.
    pub fn link(&mut self, alloc: Global, from: u32, to: u32) -> Result<Linking, OutOfMemory>
        requires from { from < count_of self.old }
        requires to { to < count_of self.old }
        ensures answer { IfOk result (λ linking. AfterLink self.old from to self.new linking) }
        ensures count { count_of self.new ≡ count_of self.old }
        ensures forward { IsForward self.old → IsForward self.new }
        ensures stays { OnErr result ((links_of self.new ≡ links_of self.old) × (forward_of self.new ≡ forward_of self.old)) }
    {
        let marks = reached(alloc, self.forward.len(), &self.links, to)?;
        if marks[from as usize] {
            return Ok(Linking::Loops);
        }
        let forward = parted(alloc, &self.forward, &marks)?;
        self.links.push(Link { from, to })?;
        self.forward = forward;
        Ok(Linking::Linked)
    }

    /// Whether a link from one element to another was made.
    fn has_link(&self, from: u32, to: u32) -> bool
        ensures { IsTrue result ↔ IsLink from to (links_of self.now) }
    {
        for place in 0..self.links.len() {
            let link = self.links[place];
            if link.from == from && link.to == to {
                return true;
            }
        }
        false
    }

    /// A link from one element to another as [`link`](Order::link) makes it, unless it was made before: nothing changes then, and no memory is taken.
    pub fn link_once(&mut self, alloc: Global, from: u32, to: u32) -> Result<Linking, OutOfMemory>
        requires from { from < count_of self.old }
        requires to { to < count_of self.old }
        ensures answer { IfOk result (λ linking. IsForward self.old → AfterOneLink self.old from to self.new linking) }
        ensures known { IsLink from to (links_of self.old) → IfOk result (λ linking. linking ≡ linkings.Linked) × (self.new ≡ self.old) }
        ensures new { OnErr result (¬ IsLink from to (links_of self.old)) }
        ensures count { count_of self.new ≡ count_of self.old }
        ensures forward { IsForward self.old → IsForward self.new }
        ensures stays { OnErr result ((links_of self.new ≡ links_of self.old) × (forward_of self.new ≡ forward_of self.old)) }
    {
        if self.has_link(from, to) {
            return Ok(Linking::Linked);
        }
        self.link(alloc, from, to)
    }

    /// The elements, each once, in an order in which each link goes forward.
    pub fn forward(&self) -> &[u32]
        ensures order { result.now ≡ forward_of self.now }
        ensures count { length result.now ≡ count_of self.now }
    {
        self.forward.as_slice()
    }

    /// All links that were made, in their order.
    pub fn links(&self) -> &[Link]
        ensures { result.now ≡ links_of self.now }
    {
        self.links.as_slice()
    }
}

/// The elements that are not marked, and behind them those that are.
fn parted(alloc: Global, elements: &[u32], marks: &[bool]) -> Result<Vec<u32>, OutOfMemory>
    ensures size { IfOk result (λ parted. vec_len parted ≡ length elements.now) }
    ensures parts { IfOk result (λ parted. parted.items ≡ filter (is_chosen marks.now false) elements.now ++ filter (is_chosen marks.now true) elements.now) }
{
    let mut parted = Vec::with_capacity(alloc, elements.len())?;
    put_chosen(&mut parted, elements, marks, false)?;
    put_chosen(&mut parted, elements, marks, true)?;
    Ok(parted)
}

/// Puts the elements that are marked, or the others, behind a list.
fn put_chosen(
    into: &mut Vec<u32>,
    elements: &[u32],
    marks: &[bool],
    wanted: bool,
) -> Result<(), OutOfMemory>
    ensures { OnOk result (into.new.items ≡ into.old.items ++ filter (is_chosen marks.now wanted) elements.now) }
{
    for element in elements {
        if is_chosen(marks, wanted, *element) {
            into.push(*element)?;
        }
    }
    Ok(())
}

/// Whether an element is marked, or is not, as is wanted.
fn is_chosen(marks: &[bool], wanted: bool, element: u32) -> bool
    ensures { result ≡ is_chosen marks.now wanted element }
{
    let is_marked = match marks.get(element as usize) {
        Some(mark) => *mark,
        None => false,
    };
    is_marked == wanted
}
