// The sections of a script, ready to be run.
ghost use Rattle.std.specs.Prelude.{◌≡◌, [], ◌++◌, IfOk, OnOk, Some};
ghost use Rattle.shell.specs.Ready.{AreReady, numbered};

use crate::leading::read_leading;
use base_types::OutOfMemory;
use row_types::{Items, Schema};
use script::{Script, Section};
use section_runs::ReadySection;
use std::alloc::Global;

/// The sections of a script, with the replies to its leading statements, and the tables that these ask for
/// and get.
pub(crate) fn make_ready(
    alloc: Global,
    script: Script,
) -> Result<(Schema, Vec<ReadySection>), OutOfMemory>
    ensures { IfOk result (λ ready. AreReady script.setup script.sessions ready.0 ready.1.items) }
{
    let Script { setup, sessions } = script;
    let mut sections = Vec::new(alloc);
    let schema = match setup {
        Some(setup) => add_setup(alloc, setup, &mut sections)?,
        None => Schema::empty(alloc),
    };
    add_sessions(alloc, sessions, &mut sections)?;
    Ok((schema, sections))
}

/// Adds the setup, and returns the tables that it asks for.
fn add_setup(
    alloc: Global,
    setup: Section,
    sections: &mut Vec<ReadySection>,
) -> Result<Schema, OutOfMemory>
    requires { sections.old.items ≡ [] }
    ensures { IfOk result (λ schema. AreReady (Some setup) [] schema sections.new.items) }
{
    let Section { blocks } = setup;
    let (schema, leads) = read_leading(alloc, blocks.as_slice())?;
    sections.push(ReadySection {
        number: None,
        leads,
        blocks,
    })?;
    Ok(schema)
}

/// Adds the sessions, numbered from 1 on.
fn add_sessions(
    alloc: Global,
    sessions: Items<Section>,
    sections: &mut Vec<ReadySection>,
) -> Result<(), OutOfMemory>
    ensures { OnOk result (sections.new.items ≡ sections.old.items ++ numbered 1 sessions) }
{
    let mut number = 1;
    for session in sessions.into_vec() {
        let Section { blocks } = session;
        sections.push(ReadySection {
            number: Some(number),
            leads: Items::new(alloc),
            blocks,
        })?;
        number += 1;
    }
    Ok(())
}
