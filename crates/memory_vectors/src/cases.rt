//! The cases that run, and what they print.
use crate::met::Met;
use anyhow::Result;
use std::alloc::Global;
use std::fmt::Display;
use std::io;
use std::process::ExitCode;

/// A run of all cases, or of the one of a name.
#[derive(Drop)]
pub struct Cases<'a> {
    /// The runtime, which also prints.
    pub rt: &'a HostRuntime,
    only: Option<&'a str>,
    is_found: bool,
    has_failed: bool,
}

impl<'a> Cases<'a> {
    pub fn new(rt: &'a HostRuntime, only: Option<&'a str>) -> Cases<'a> {
        Cases {
            rt,
            only,
            is_found: false,
            has_failed: false,
        }
    }

    /// Runs the case, if it is to run, and prints what became of its call or what is wrong.
    pub fn run<F: FnOnce(Global) -> Result<Met> + Drop>(
        &mut self,
        name: &str,
        case: F,
    ) -> io::Result<()>
        requires { F.IsAlwaysCallable case }
    {
        if let Some(only) = self.only
            && only != name
        {
            return Ok(());
        }
        self.is_found = true;
        match case(self.rt.alloc()) {
            Ok(met) => self.print(name, met),
            Err(error) => {
                self.has_failed = true;
                self.print(name, format_args!("{error:#}"))
            }
        }
    }

    // Of a case that runs alone the name is left out.
    fn print<D: Display + Drop>(&self, name: &str, what: D) -> io::Result<()> {
        match self.only {
            Some(_) => println!(self.rt; "{what}"),
            None => println!(self.rt; "{name}: {what}"),
        }
    }

    /// The status of the program.
    pub fn status(&self) -> io::Result<ExitCode> {
        match self.only {
            Some(name) if !self.is_found => {
                eprintln!(self.rt; "no such case: {name}")?;
                Ok(ExitCode::from(2))
            }
            _ if self.has_failed => Ok(ExitCode::FAILURE),
            _ => Ok(ExitCode::SUCCESS),
        }
    }
}
