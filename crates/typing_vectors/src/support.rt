//! What a run writes, and its status.
use souper_ir::ast::LeftHandSide;
use souper_records::layout::PLAIN;
use souper_records::options::ReadOptions;
use souper_records::seen::Seen;
use souper_typed::Form;
use souper_typing::layout::TypedLayout;
use souper_typing::objects::{TypedObjects, write_typed_objects};
use souper_typing::run::{typed_run, typed_uniq_run};
use souper_watched::Watched;
use std::alloc::Global;
use std::io::Write;
use std::process::Abort;

pub fn options(recover: bool) -> ReadOptions<'static> {
    ReadOptions {
        name: "a.lhs",
        recover,
        line_buffered: false,
        hints: None,
    }
}

pub fn layout(form: Form) -> TypedLayout {
    TypedLayout {
        form,
        layout: PLAIN,
    }
}

/// What a run did.
#[derive(Drop)]
pub struct Run {
    pub status: u8,
    out: Vec<u8>,
    err: Vec<u8>,
}

impl Run {
    pub fn out(&self) -> &str {
        std::str::from_utf8(&self.out).unwrap_or("not UTF-8")
    }

    pub fn err(&self) -> &str {
        std::str::from_utf8(&self.err).unwrap_or("not UTF-8")
    }
}

/// Writes the records of a stream.
pub fn records(alloc: Global, form: Form, recover: bool, source: &str) -> Run {
    let (mut written, mut reported) = (Vec::new(alloc), Vec::new(alloc));
    let mut out = Watched::new(&mut written);
    let mut err = Watched::new(&mut reported);
    let (layout, options) = (layout(form), options(recover));
    let mut reader = source.as_bytes();
    let status = typed_run::<LeftHandSide, &[u8], &mut Vec<u8>, &mut Vec<u8>>(
        alloc,
        layout,
        options,
        &mut reader,
        &mut out,
        &mut err,
    );
    Run {
        status,
        out: written,
        err: reported,
    }
}

fn read_distinct<W: Write, E: Write>(
    form: Form,
    source: &str,
    seen: &mut Seen,
    out: &mut Watched<W>,
    err: &mut Watched<E>,
) -> u8 {
    let (layout, options) = (layout(form), options(true));
    let mut reader = source.as_bytes();
    typed_uniq_run::<LeftHandSide, &[u8], W, E>(layout, options, seen, &mut reader, out, err)
}

/// Writes the records of the distinct items of two streams with this text, with recovery.
pub fn distinct(alloc: Global, form: Form, source: &str) -> Run {
    let (mut written, mut reported) = (Vec::new(alloc), Vec::new(alloc));
    let mut out = Watched::new(&mut written);
    let mut err = Watched::new(&mut reported);
    let mut seen = Seen::new(alloc);
    let first = read_distinct::<&mut Vec<u8>, &mut Vec<u8>>(
        form, source, &mut seen, &mut out, &mut err,
    );
    let second = read_distinct::<&mut Vec<u8>, &mut Vec<u8>>(
        form, source, &mut seen, &mut out, &mut err,
    );
    Run {
        status: first.max(second),
        out: written,
        err: reported,
    }
}

/// Writes the objects of a stream. The status is 1 if an item of it has no widths, or a part is rejected.
pub fn objects(rt: &impl Abort, alloc: Global, form: Form, source: &str) -> Run {
    let (mut written, mut reported) = (Vec::new(alloc), Vec::new(alloc));
    let mut out = Watched::new(&mut written);
    let mut err = Watched::new(&mut reported);
    let maker = TypedObjects {
        form,
        rename: false,
    };
    let options = options(true);
    let mut reader = source.as_bytes();
    let refused = write_typed_objects::<LeftHandSide, &[u8], &mut Vec<u8>, &mut Vec<u8>>(
        alloc,
        maker,
        options,
        &mut reader,
        &mut out,
        &mut err,
    ).ok()
        .expect(rt, source);
    Run {
        status: u8::from(refused),
        out: written,
        err: reported,
    }
}
