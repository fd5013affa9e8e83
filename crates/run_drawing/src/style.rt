//! What the marks of a drawing look like, and what they mean.

ghost use Rattle.std.specs.Prelude.{◌≡◌, ◌++◌, OnOk};
ghost use Rattle.run_drawing.specs.Style.{look_text, plain_text, colours_text, dark_text, meaning_text, style_text};

use nrt_base::NoMemory;

fn push_look(out: &mut Vec<u8>) -> Result<(), NoMemory>
    ensures { OnOk result (out.new.items ≡ out.old.items ++ look_text) }
{
    out.extend_from_slice(
        b"<style>svg{background:#fff;--i:#1b1b1b;--q:#6b7178;--s:#c9d3dd;--w:#f3f5f7;--d:#c4342b;--t:#7a3e9d;font:10px sans-serif}\
            text{fill:var(--i)}.q{fill:var(--q)}.w{fill:var(--w)}.r{fill:var(--s)}.p{fill:var(--g);fill-opacity:.3}\
            .e{stroke:var(--q);stroke-width:2}.f{stroke:var(--g);stroke-width:5}.n{stroke:var(--i);stroke-dasharray:1 3}",
    )
}

fn push_plain(out: &mut Vec<u8>) -> Result<(), NoMemory>
    ensures { OnOk result (out.new.items ≡ out.old.items ++ plain_text) }
{
    out.extend_from_slice(
        b".d{fill:url(#d);stroke:var(--d)}.m{stroke:var(--d);stroke-width:3}.t{stroke:var(--t);stroke-width:3;stroke-linecap:round}",
    )?;
    out.extend_from_slice(
        b".l{fill:var(--q)}.k{fill:none;stroke:var(--q);stroke-dasharray:2 2}.s{text-anchor:middle;font:bold 11px monospace}",
    )
}

fn push_colours(out: &mut Vec<u8>) -> Result<(), NoMemory>
    ensures { OnOk result (out.new.items ≡ out.old.items ++ colours_text) }
{
    out.extend_from_slice(
        b".g0{--g:#556b7a}.g1{--g:#1f6fb4}.g2{--g:#c26a00}.g3{--g:#0d8a66}.g4{--g:#8d4fb0}.g5{--g:#8a6d1f}",
    )?;
    out.extend_from_slice(
        b".f.g2{stroke-dasharray:14 2}.f.g3{stroke-dasharray:6 2}.f.g4{stroke-dasharray:14 2 3 2}",
    )?;
    out.extend_from_slice(b".f.g5{stroke-dasharray:3 2}.f.g0{stroke-dasharray:9 2 9 6}")
}

fn push_dark(out: &mut Vec<u8>) -> Result<(), NoMemory>
    ensures { OnOk result (out.new.items ≡ out.old.items ++ dark_text) }
{
    out.extend_from_slice(
        b"@media (prefers-color-scheme:dark){svg{background:#15181c;--i:#e8e8e8;--q:#9aa2aa;--s:#3b4956;--w:#1d2227;--d:#ff7b6e;--t:#d3a6f0}",
    )?;
    out.extend_from_slice(
        b".g0{--g:#9db4c4}.g1{--g:#62aef0}.g2{--g:#f2a444}.g3{--g:#3fc79b}.g4{--g:#c08be0}.g5{--g:#d8bd62}}</style>",
    )?;
    out.extend_from_slice(
        b"<defs><pattern id='d' width='6' height='6' patternUnits='userSpaceOnUse' patternTransform='rotate(45)'>",
    )?;
    out.extend_from_slice(b"<path class='m' d='M0 0v6'/></pattern></defs>")
}

fn push_meaning(out: &mut Vec<u8>) -> Result<(), NoMemory>
    ensures { OnOk result (out.new.items ≡ out.old.items ++ meaning_text) }
{
    out.extend_from_slice(
        b"<text x='8' y='18'>Each node has a band. Its step is the version that the node searches; the dots are the newest. ",
    )?;
    out.extend_from_slice(
        b"P primary: thick, a colour and a dash for each generation. r replica. -2: the newest is 2 further. Hatched: down.</text>",
    )?;
    out.extend_from_slice(
        b"<text x='8' y='34'>* published or promoted, &lt; copy begins, + switched, ? search begins, ! answered, ",
    )?;
    out.extend_from_slice(
        b"( ticket opened: a bar at its version, ) closed, ~ commit begins, = committed, x crashed, ^ reopened, % fault met.</text>",
    )?;
    out.extend_from_slice(
        b"<text x='8' y='50'>Above the nodes: the lanes of the script, a bar for each line from its first entry to its reply, ",
    )?;
    out.extend_from_slice(
        b"dashed where it was refused. Each mark tells more under the pointer.</text>",
    )
}

/// Puts what the marks look like and mean at the end.
pub fn push_style(out: &mut Vec<u8>) -> Result<(), NoMemory>
    ensures { OnOk result (out.new.items ≡ out.old.items ++ style_text) }
{
    push_look(out)?;
    push_plain(out)?;
    push_colours(out)?;
    push_dark(out)?;
    push_meaning(out)?;
    out.push(b'\n')?;
    Ok(())
}
