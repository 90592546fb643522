//! A sink that writes the widths of items before another sink takes them.
ghost use Rattle.std.specs.Prelude.{◌≡◌, [], false};
ghost use Rattle.souper_typing.specs.Widened.{WidenedHolds, WidenedWrote};

use crate::reports::report_of;
use souper_ir::ast::{Arena, Statement};
use souper_ir::parse::{Sink, WholeItem};
use souper_records::parts::{Part, PartSink};
use souper_records::rejected::Rejected;
use souper_records::stop::Stop;
use souper_stream::{ChunkSink, StreamItem};
use souper_typed::{Form, TypedItem, write_well_formed_widths};
use souper_untyped::FlawText;
use souper_watched::Watched;
use souper_widths::WidthsError;
use std::alloc::{AllocError, Global};
use std::io::Write;

/// Takes items, and passes those on that have widths, as they are written. After one that has none no further item of the part is taken,
/// unless that is asked for.
#[derive(Drop)]
pub(crate) struct Widened<S> {
    alloc: Global,
    form: Form,

    // Whether items are taken after one without widths.
    recover: bool,

    /// What takes the items with widths.
    pub(crate) inner: S,

    // Of each item that was taken, the lines of its error, if it has no widths.
    flaws: Vec<Option<String>>,

    // Whether one of them has no widths.
    any: bool,

    /// What is to be reported of the last part, if an item of it has no widths.
    pub(crate) report: Option<String>,
}

impl<S> Widened<S> {
    pub(crate) fn new(alloc: Global, form: Form, recover: bool, inner: S) -> Self
        ensures form { result.form ≡ form }
        ensures recover { result.recover ≡ recover }
        ensures inner { result.inner ≡ inner }
        ensures flaws { result.flaws.items ≡ [] }
        ensures any { result.any ≡ false }
    {
        Widened {
            alloc,
            form,
            recover,
            inner,
            flaws: Vec::new(alloc),
            any: false,
            report: None,
        }
    }
}

impl<T: WholeItem + TypedItem + Drop, S: Sink<T>> Sink<T> for Widened<S> {
    ghost holds = { λ first widened items. WidenedHolds S.holds first widened items };

    fn take(&mut self, mut item: T) -> Result<Option<Arena<Statement>>, AllocError> {
        if self.any && !self.recover {
            return Ok(item.take_statements());
        }
        match write_well_formed_widths(&mut item, self.form) {
            Ok(_) => {
                self.flaws.push(None)?;
                Sink::<T>::take(&mut self.inner, item)
            }
            Err(WidthsError::Flawed(flaw)) => {
                let text = FlawText::new(self.alloc, &item, flaw)?;
                let mut lines = String::new(self.alloc);
                text.append_lines(self.alloc, &mut lines)?;
                self.flaws.push(Some(lines))?;
                self.any = true;
                Ok(item.take_statements())
            }
            // The item is well formed, so the error is out of memory.
            Err(_) => Err(AllocError),
        }
    }
}

impl<T: WholeItem + TypedItem + Drop, S: ChunkSink<T>> ChunkSink<T> for Widened<S> {
    fn rollback(&mut self) {
        ChunkSink::<T>::rollback(&mut self.inner);
        self.flaws.clear();
        self.any = false;
    }
}

// The inner sink writes the part, and the report of its items without widths is made.
impl<T: StreamItem + TypedItem + Drop, S: PartSink<T>> PartSink<T> for Widened<S> {
    ghost wrote = { λ name a x b y os. WidenedWrote S.wrote name a x b y os };

    fn write_part<W: Write>(
        &mut self,
        part: Part<'_>,
        refusal: Option<Rejected<'_>>,
        out: &mut Watched<W>,
    ) -> Result<(), Stop> {
        let report = report_of(self.alloc, self.any, part, self.flaws.as_slice())?;
        PartSink::<T>::write_part(&mut self.inner, part, refusal, out)?;
        self.report = report;
        self.flaws.clear();
        self.any = false;
        Ok(())
    }
}
