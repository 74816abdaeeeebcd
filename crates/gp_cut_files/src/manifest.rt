ghost use Rattle.std.specs.Prelude.{◌≡◌, ◌+◌, ◌≤◌, ◌++◌, [], IfOk, OnOk};
ghost use Rattle.gp_cut.specs.Cut.{cut_manifest};
ghost use Rattle.gp_text.specs.Spelling.{spelling};
ghost use Rattle.gp_window.specs.Grammar.{head_words};
ghost use Rattle.gp_cut_files.specs.ManifestText.{manifest_text};

use crate::lines::{put_line, put_values};
use crate::started::started_behind;
use crate::values::cut_values;
use gp_base::Row;
use gp_cut::Part;
use gp_window::Recording;
use std::alloc::{AllocError, Global};

/// The text of the manifest for the windows of a part, with the window that sets their stage.
pub fn cut_manifest(alloc: Global, recording: &Recording, part: Part) -> Result<Row<u8>, AllocError>
    requires { part.before + part.count ≤ recording.now.manifest.epochs }
    ensures { IfOk result (λ text. text ≡ manifest_text (cut_manifest part.before part.count recording.now)) }
{
    let manifest = recording.manifest();
    let format = manifest.format();
    let threads = manifest.threads();
    let roots = started_behind(alloc, recording, part.before)?;
    let values = cut_values(alloc, manifest, part)?;
    let mut text = Vec::new(alloc);
    put_head(&mut text, format, threads, part.count + 1, roots.as_slice())?;
    put_values(&mut text, values.as_slice())?;
    Ok(Row::from_vec(text))
}

/// Puts the lines of a manifest that come before its values.
fn put_head(
    text: &mut Vec<u8>,
    format: u32,
    threads: u32,
    epochs: u32,
    roots: &[u32],
) -> Result<(), AllocError>
    ensures { OnOk result (text.new.items ≡ text.old.items ++ spelling (head_words (record { format = format; threads = threads; epochs = epochs; roots = roots.now; values = [] }))) }
{
    put_line(text, b"gptrace", &[format])?;
    put_line(text, b"threads", &[threads])?;
    put_line(text, b"epochs", &[epochs])?;
    put_line(text, b"roots", roots)
}
