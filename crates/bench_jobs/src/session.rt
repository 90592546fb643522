//! What all jobs of a run share.
use crate::digest::Digest;
use crate::random::Random;
use crate::texts::Texts;
use crate::words::Lists;
use souper_format::command::Kind;
use souper_format::items::format_text;
use souper_format::watched::Watched;
use souper_ir::ast::LeftHandSide;
use souper_records::check::check_run;
use souper_records::layout::{Layout, Summary};
use souper_records::options::ReadOptions;
use souper_records::output;
use souper_records::rows::rows_run;
use souper_records::run::{count_run, each_run_with, uniq_run_with};
use souper_records::seen::Seen;
use souper_stream::StreamItem;
use std::alloc::{AllocError, Global};
use std::fmt::Display;
use std::io::{BufReader, Write};
use std::{io, mem};

// How many bytes are asked for at a time: as many as the program `souper_items` asks for.
const CAPACITY: usize = 1 << 16;

/// The sources of random texts, and digests of all results.
#[derive(Drop)]
pub(crate) struct Session {
    pub(crate) alloc: Global,
    pub(crate) texts: Texts,
    pub(crate) lists: Lists,
    pub(crate) out: Digest,
    pub(crate) err: Digest,
}

/// A writer that keeps a digest of the bytes alone.
#[derive(Drop)]
pub(crate) struct Output<'d> {
    pub(crate) digest: &'d mut Digest,
}

impl Write for Output<'_> {
    fn write(&mut self, buf: &[u8]) -> io::Result<usize> {
        self.digest.add(buf);
        Ok(buf.len())
    }

    fn flush(&mut self) -> io::Result<()> {
        Ok(())
    }
}

// How a stream of this name is read.
fn read_options(name: &str, recover: bool) -> ReadOptions<'_> {
    ReadOptions {
        name,
        recover,
        line_buffered: false,
        hints: None,
    }
}

impl Session {
    pub(crate) fn new(alloc: Global, random: Random) -> Result<Session, AllocError> {
        Ok(Session {
            alloc,
            texts: Texts::new(alloc, random),
            lists: Lists::new(alloc)?,
            out: Digest::new(),
            err: Digest::new(),
        })
    }

    /// Writes the records of the items of the text, as a stream. With `keep_going` it resumes after a refusal.
    pub(crate) fn each<T: StreamItem + Drop>(
        &mut self,
        layout: Layout,
        keep_going: bool,
        text: &str,
    ) -> anyhow::Result<()> {
        let mut out = Watched::new(Output {
            digest: &mut self.out,
        });
        let mut err = Watched::new(Output {
            digest: &mut self.err,
        });
        let mut reader = BufReader::with_capacity(self.alloc, CAPACITY, text.as_bytes())?;
        let status = each_run_with::<T, BufReader<&[u8]>, Output<'_>, Output<'_>>(
            self.alloc,
            layout,
            read_options("harvest", keep_going),
            &mut reader,
            &mut out,
            &mut err,
        );
        self.out.number(u64::from(status));
        Ok(())
    }

    /// Formats the items of the text, which is in memory.
    pub(crate) fn format(&mut self, kind: Kind, text: &str) -> Result<(), AllocError> {
        match format_text(self.alloc, kind, text, None) {
            Ok(text) => self.out.add(text.as_bytes()),
            Err(error) => self.failed(&error)?,
        }
        Ok(())
    }

    /// Adds the text of an error.
    pub(crate) fn failed<E: Display>(&mut self, error: &E) -> Result<(), AllocError> {
        let shown = error.to_string(self.alloc)?;
        self.err.add(shown.as_bytes());
        Ok(())
    }

    /// Writes the records of the first items of their graphs in one text, and resumes after a refusal.
    pub(crate) fn distinct_going_on(&mut self, layout: Layout, text: &str) -> anyhow::Result<()> {
        let mut out = Watched::new(Output {
            digest: &mut self.out,
        });
        let mut err = Watched::new(Output {
            digest: &mut self.err,
        });
        let mut seen = Seen::new(self.alloc);
        let mut reader = BufReader::with_capacity(self.alloc, CAPACITY, text.as_bytes())?;
        let status = uniq_run_with::<LeftHandSide, BufReader<&[u8]>, Output<'_>, Output<'_>>(
            layout,
            read_options("harvest", true),
            &mut seen,
            &mut reader,
            &mut out,
            &mut err,
        );
        self.out.number(u64::from(status));
        Ok(())
    }

    /// Writes the records of the first items of their graphs, as [`Session::each`] does.
    pub(crate) fn distinct(
        &mut self,
        layout: Layout,
        seen: &mut Seen,
        text: &str,
    ) -> anyhow::Result<()> {
        let mut out = Watched::new(Output {
            digest: &mut self.out,
        });
        let mut err = Watched::new(Output {
            digest: &mut self.err,
        });
        let mut reader = BufReader::with_capacity(self.alloc, CAPACITY, text.as_bytes())?;
        let status = uniq_run_with::<LeftHandSide, BufReader<&[u8]>, Output<'_>, Output<'_>>(
            layout,
            read_options("store", false),
            seen,
            &mut reader,
            &mut out,
            &mut err,
        );
        self.out.number(u64::from(status));
        Ok(())
    }

    /// Writes the records of all distinct items, with their counts.
    pub(crate) fn counts(&mut self, layout: Layout, seen: &Seen) {
        let mut out = Watched::new(Output {
            digest: &mut self.out,
        });
        let mut err = Watched::new(Output {
            digest: &mut self.err,
        });
        let summary = Summary {
            counts: true,
            repeated: false,
        };
        let status = count_run(self.alloc, layout, summary, seen, &mut out, &mut err);
        self.out.number(u64::from(status));
    }

    /// Writes JSON lines of the items of the text, as a stream.
    pub(crate) fn objects(&mut self, text: &str) -> anyhow::Result<()> {
        let mut out = Watched::new(Output {
            digest: &mut self.out,
        });
        let mut err = Watched::new(Output {
            digest: &mut self.err,
        });
        let mut reader = BufReader::with_capacity(self.alloc, CAPACITY, text.as_bytes())?;
        let status = rows_run::<
            LeftHandSide,
            String,
            output::Output,
            BufReader<&[u8]>,
            Output<'_>,
            Output<'_>,
        >(
            self.alloc,
            output::Output::Objects { rename: false },
            read_options("store", true),
            &mut reader,
            &mut out,
            &mut err,
        );
        self.out.number(u64::from(status));
        Ok(())
    }

    /// Checks whether the text is canonical, as a stream.
    pub(crate) fn check(&mut self, text: &str) -> anyhow::Result<()> {
        let mut err = Watched::new(Output {
            digest: &mut self.err,
        });
        let mut reader = BufReader::with_capacity(self.alloc, CAPACITY, text.as_bytes())?;
        let status = check_run::<LeftHandSide, BufReader<&[u8]>, Output<'_>>(
            self.alloc,
            &mut reader,
            "store",
            None,
            &mut err,
        );
        self.out.number(u64::from(status));
        Ok(())
    }

    /// Takes the text that was made, in whose place it is put back to be made anew.
    pub(crate) fn take_text(&mut self) -> String {
        mem::replace(&mut self.texts.text, String::new(self.alloc))
    }

    /// The digest of all results so far.
    pub(crate) fn digest(&self) -> u64 {
        self.out.value() ^ self.err.value().rotate_left(32)
    }
}
