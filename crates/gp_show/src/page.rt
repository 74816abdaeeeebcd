ghost use Rattle.std.specs.Prelude.{◌≡◌, ◌++◌, OnOk};
ghost use Rattle.gp_show.specs.Show.{page_foot, page_head, style_sheet};

use gp_drawing::put_tip;
use std::alloc::AllocError;

/// Puts the head of a page.
pub fn put_page_head(text: &mut Vec<u8>) -> Result<(), AllocError>
    ensures { OnOk result (text.new.items ≡ text.old.items ++ page_head) }
{
    text.extend_from_slice(
        b"<!doctype html>\n<html lang='en'>\n<head>\n<meta charset='utf-8'>\n<meta name='viewport' content='width=device-width'>\n<title>gpshow</title>\n<style>\n",
    )?;
    put_style_sheet(text)?;
    text.extend_from_slice(b"</style>\n</head>\n<body>\n")?;
    put_tip(text)?;
    text.extend_from_slice(b"<h1>gpshow</h1>\n")?;
    Ok(())
}

#[tactic(auto, unfolding(crate::specs::Show::style_sheet))]
fn put_style_sheet(text: &mut Vec<u8>) -> Result<(), AllocError>
    ensures { OnOk result (text.new.items ≡ text.old.items ++ style_sheet) }
{
    text.extend_from_slice(
        b":root{color-scheme:light dark;--ink:#1f2328;--soft:#59636e;--line:#d1d9e0;--mark:#bc4c00;--read:#0969da;--lock:#8250df;--flow:#1a7f37}@media(prefers-color-scheme:dark){:root{--ink:#e6edf3;--soft:#9198a1;--line:#3d444d;--mark:#f0883e;--read:#58a6ff;--lock:#bc8cff;--flow:#3fb950}}\nbody{font:15px/1.5 system-ui,sans-serif;color:var(--ink);max-width:72rem;margin:1.5rem auto;padding:0 1rem}h1{font-size:1.4rem}h2{font-size:1.1rem}\ntable{border-collapse:collapse;display:block;overflow-x:auto}th,td{padding:.2rem .7rem;text-align:right;border-bottom:1px solid var(--line)}th:first-child,td:first-child{text-align:left}\nsection{margin:2rem 0;overflow-x:auto}ul,pre,.words,.thread{font-family:ui-monospace,monospace;font-size:13px}ul{padding-left:1.2rem}summary{cursor:pointer;color:var(--soft)}\n.tips{position:absolute}.tip{fill:var(--soft);fill:context-stroke}.lane{stroke:var(--line)}.bar{stroke:var(--lock);stroke-width:5;stroke-opacity:.4}.shared{stroke-dasharray:4 3}\n.arrow{stroke-width:1.3}.read{stroke:var(--read)}.lock{stroke:var(--lock)}.join,.start{stroke:var(--flow)}\ncircle{fill:var(--soft)}.run{fill:none;stroke:var(--soft)}.marked{fill:var(--mark)}text{fill:var(--ink)}.thread{fill:var(--soft);text-anchor:middle}\n",
    )
}

/// Puts the foot of a page.
#[tactic(auto, unfolding(crate::specs::Show::page_foot))]
pub fn put_page_foot(text: &mut Vec<u8>) -> Result<(), AllocError>
    ensures { OnOk result (text.new.items ≡ text.old.items ++ page_foot) }
{
    text.extend_from_slice(b"</body>\n</html>\n")
}
