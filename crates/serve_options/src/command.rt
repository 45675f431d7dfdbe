//! The command as `clap` reads it.
ghost use Rattle.std.specs.Prelude.{◌≡◌, false, IfOk};
ghost use Rattle.clap.specs.Words.{app_of, rule_of};
ghost use Rattle.serve_options.specs.ServeCommand.{flag as flag_rule, serve_app, valued as valued_rule};

use clap::builder::ValueParser;
use clap::{Arg, ArgAction, Command, value_parser};
use grid_base::Memory;
use std::alloc::Global;

/// An option with one value, or else its default.
fn valued<'a>(alloc: Global, name: &'a str, values: ValueParser<'a>, default: &'a str) -> Arg<'a>
    ensures rule { rule_of result ≡ valued_rule name.entry.now values.entry default.entry.now }
    ensures local { result.global ≡ false }
{
    Arg::new(alloc, name)
        .long(name)
        .action(ArgAction::Set)
        .value_name("NUMBER")
        .value_parser(values)
        .default_value(default)
}

/// An option without a value.
fn flag<'a>(alloc: Global, name: &'a str) -> Arg<'a>
    ensures rule { rule_of result ≡ flag_rule name.entry.now }
    ensures local { result.global ≡ false }
{
    Arg::new(alloc, name).long(name).action(ArgAction::SetTrue)
}

/// The command with its options.
pub(crate) fn serve_command<'a>(alloc: Global) -> Result<Command<'a>, Memory>
    ensures { IfOk result (λ command. app_of command ≡ serve_app) }
{
    let members = valued(alloc, "members", value_parser!(u8).range(1..=8), "3");
    let backups = valued(alloc, "backups", value_parser!(u8).range(0..=6), "1");
    let capacity = valued(
        alloc,
        "capacity",
        value_parser!(u32).range(0..=2_147_483_647),
        "1000",
    );
    let port = valued(alloc, "port", value_parser!(u16).range(1..=65_528), "5701");
    let stay = flag(alloc, "stay");
    Command::new(alloc, "grid serve")
        .bin_name("grid serve")?
        .about("Serves clients on 127.0.0.1, and reads a control script from standard input")
        .arg(members.help("How many members the grid has, 1 to 8"))?
        .arg(backups.help("How many backups each partition has, 0 to 6"))?
        .arg(capacity.help("How many values a queue holds"))?
        .arg(port.help("The port of member 0; member M listens at this port plus M"))?
        .arg(stay.help("Goes on serving once the control script has ended"))
}

/// What `grid serve --help` prints.
pub fn help_of_serve(alloc: Global) -> Result<String, Memory> {
    serve_command(alloc)?.render_help()
}
