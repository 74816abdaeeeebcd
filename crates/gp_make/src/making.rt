ghost use Rattle.std.specs.Prelude.{◌≡◌, ◌+◌, ◌<◌, ◌≤◌, ◌++◌, IfOk, OnOk, flat_map, length, min};
ghost use Rattle.gp_text.specs.Spelling.{spelling};
ghost use Rattle.gp_make.specs.Files.{made_files};
ghost use Rattle.gp_make.specs.Run.{events_before, later_windows, program_after, window_events};
ghost use Rattle.gp_make.specs.Texts.{start_lines};
ghost use Rattle.gp_make.specs.Traces.{TracesGrow, lines_of, trace_lines};

use crate::files::{GrowingTrace, empty_traces, in_order, put_event, put_marks};
use crate::manifest::{manifest_head, put_changes};
use crate::program::Program;
use crate::recipe::{Recipe, WINDOW};
use gp_base::Row;
use gp_files::MadeFile;
use std::alloc::{AllocError, Global};

/// The files of the recording, in the order in which they are written: the manifest, the traces by
/// thread, the properties.
pub fn make(alloc: Global, recipe: &Recipe) -> Result<Row<MadeFile>, AllocError>
    requires threads { 0 < recipe.now.threads }
    requires events { 0 < recipe.now.events }
    ensures { IfOk result (λ files. files ≡ made_files recipe.now) }
{
    let mut manifest = manifest_head(alloc, recipe.threads, recipe.windows())?;
    let mut traces = empty_traces(alloc, recipe.threads)?;
    run(recipe, &mut manifest, traces.as_mut_slice())?;
    in_order(alloc, manifest, traces)
}

// Runs the program. The traces get what the threads do, and the manifest the values that changed.
fn run(
    recipe: &Recipe,
    manifest: &mut Vec<u8>,
    traces: &mut [GrowingTrace],
) -> Result<(), AllocError>
    requires threads { 0 < recipe.now.threads }
    requires events { 0 < recipe.now.events }
    requires traces { length traces.old ≡ recipe.now.threads }
    ensures manifest { OnOk result (manifest.new.items ≡ manifest.old.items ++ spelling (flat_map (start_lines recipe.now) (later_windows recipe.now.events))) }
    ensures traces { OnOk result (TracesGrow traces.old traces.new (trace_lines recipe.now)) }
{
    let mut program = Program::new(recipe.seed);
    let mut before = program.values;
    run_window(recipe, 1, &mut program, traces)?;
    for window in 2..recipe.windows() + 1 {
        put_marks(traces)?;
        put_changes(manifest, window, &before, &program.values)?;
        before = program.values;
        run_window(recipe, window, &mut program, traces)?;
    }
    Ok(())
}

// Does the events of a window.
fn run_window(
    recipe: &Recipe,
    window: u32,
    program: &mut Program,
    traces: &mut [GrowingTrace],
) -> Result<(), AllocError>
    requires threads { 0 < recipe.now.threads }
    requires window { 1 ≤ window }
    requires first { events_before window ≤ recipe.now.events }
    requires traces { length traces.old ≡ recipe.now.threads }
    requires begun { program.old ≡ program_after recipe.now (events_before window) }
    ensures program { OnOk result (program.new ≡ program_after recipe.now (min (events_before window + 200) recipe.now.events)) }
    ensures traces { OnOk result (TracesGrow traces.old traces.new (λ thread. lines_of thread (window_events recipe.now window))) }
{
    let first = (window - 1) * WINDOW;
    let size = (recipe.events - first).min(WINDOW);
    for number in first..first + size {
        let event = program.step(recipe.threads, number);
        put_event(traces, event)?;
    }
    Ok(())
}
