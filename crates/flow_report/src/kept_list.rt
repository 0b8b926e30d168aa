//! The list that was printed last, with its text: where a later line has the same values, it gets the same bytes.
//!
//! In most runs a value goes from block to block as it is, and stands in a line or two of each of them.
ghost use Rattle.std.specs.Prelude.{◌≡◌, true, [], None};
ghost use Rattle.flow_value.specs.declared.steps.Steps.{Steps};
ghost use Rattle.flow_link.specs.Trace.{Run, took_at, gave_over, given_over, marks_of};
ghost use Rattle.flow_report.specs.KeptList.{Fits};
ghost use Rattle.flow_report.specs.Printed.{list_text};
ghost use Rattle.flow_report.specs.SameLists.{AllTaken};

use crate::list_line::{write_given, write_taken};
use flow_link::{LinkId, Mark};
use std::alloc::Global;

/// The text of a list, and what has just these values, in this order.
#[derive(Drop)]
pub(crate) struct KeptList {
    /// Whether all that was given over links between blocks was taken: then the lists of its two ends are the same.
    all_taken: bool,
    text: Vec<u8>,
    /// The port that took them, as the numbers of its block and of the port.
    port: Option<(usize, u32)>,
    /// The links over which they were given.
    links: Vec<LinkId>,
}

impl KeptList {
    /// No list.
    pub(crate) fn new(alloc: Global, all_taken: bool) -> KeptList
        ensures { (run : Run Steps) → (all_taken ≡ true → AllTaken run) → Fits run result }
    {
        KeptList {
            all_taken,
            text: Vec::new(alloc),
            port: None,
            links: Vec::new(alloc),
        }
    }

    /// Whether all that was given over links between blocks is known to have been taken.
    pub(crate) fn all_taken(&self) -> bool
        ensures { (run : Run Steps) → Fits run self.now → result ≡ true → AllTaken run }
    {
        self.all_taken
    }

    pub(crate) fn text(&self) -> &[u8]
        ensures { result.now ≡ self.now.text.items }
    {
        self.text.as_slice()
    }

    /// Whether this port is known to have taken the values of the list.
    pub(crate) fn is_of_port(&self, block: usize, port: u32) -> bool
        ensures { (run : Run Steps) → Fits run self.now → result ≡ true → self.now.text.items ≡ list_text
            (took_at port (marks_of run block)) }
    {
        match self.port {
            Some((of_block, of_port)) => of_block == block && of_port == port,
            None => false,
        }
    }

    /// Whether the values of the list are known to have been given over this link.
    pub(crate) fn is_of_link(&self, link: LinkId) -> bool
        ensures { (run : Run Steps) → Fits run self.now → result ≡ true → self.now.text.items ≡ list_text
            (given_over run link) }
    {
        for known in self.links.as_slice() {
            if *known == link {
                return true;
            }
        }
        false
    }

    /// Adds a port that took the values of the list.
    pub(crate) fn add_port(&mut self, block: usize, port: u32)
        ensures same { self.new.text.items ≡ self.old.text.items }
        ensures fits { (run : Run Steps) → Fits run self.old → self.old.text.items ≡ list_text
            (took_at port (marks_of run block)) → Fits run self.new }
    {
        self.port = Some((block, port));
    }

    /// Adds a link over which the values of the list were given, if there is memory for it.
    pub(crate) fn add_link(&mut self, link: LinkId)
        ensures same { self.new.text.items ≡ self.old.text.items }
        ensures fits { (run : Run Steps) → Fits run self.old → self.old.text.items ≡ list_text
            (given_over run link) → Fits run self.new }
    {
        let _known = self.links.push(link);
    }

    // The text is that of no list then.
    fn forget(&mut self)
        ensures same { self.new.all_taken ≡ self.old.all_taken }
        ensures text { self.new.text.items ≡ [] }
        ensures port { self.new.port ≡ None }
        ensures links { self.new.links.items ≡ [] }
    {
        self.text.clear();
        self.port = None;
        self.links.clear();
    }

    /// Keeps the list of what this port took, if there is memory for it; else none is kept.
    pub(crate) fn keep_taken(&mut self, journal: &[Mark], block: usize, port: u32) -> bool
        ensures text { result ≡ true → self.new.text.items ≡ list_text (took_at port journal.now) }
        ensures fits { (run : Run Steps) → Fits run self.old → journal.now ≡ marks_of run block → Fits run self.new }
    {
        self.forget();
        if write_taken(&mut self.text, journal, port).is_err() {
            return false;
        }
        self.add_port(block, port);
        true
    }

    /// Keeps the list of what was given over this link, if there is memory for it; else none is kept.
    pub(crate) fn keep_given(&mut self, journal: &[Mark], link: LinkId) -> bool
        ensures text { result ≡ true → self.new.text.items ≡ list_text (gave_over link journal.now) }
        ensures fits { (run : Run Steps) → Fits run self.old → gave_over link journal.now ≡ given_over run link
            → Fits run self.new }
    {
        self.forget();
        if write_given(&mut self.text, journal, link).is_err() {
            return false;
        }
        self.add_link(link);
        true
    }
}
