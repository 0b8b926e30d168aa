//! How the page looks: light, or dark where the reader's system is.

/// The style of the page.
pub(crate) const STYLE: &[u8] =
    b":root{color-scheme:light dark;--ground:#fff;--ink:#1c2126;--faint:#5a636d;--edge:#c3c9d0;--link:#68727d;
--plain:#f2f4f6;--plain-edge:#8b95a0;--done:#dcf3e1;--done-edge:#2c8347;--waiting:#fdf1c9;--waiting-edge:#a87900;
--faulted:#fcdedd;--faulted-edge:#c22f2f}
@media (prefers-color-scheme:dark){:root{--ground:#15181c;--ink:#e5e8eb;--faint:#a3adb7;--edge:#3a424b;--link:#8d98a4;
--plain:#23282e;--plain-edge:#6d7883;--done:#173322;--done-edge:#4fb36f;--waiting:#3a3110;--waiting-edge:#d3a62a;
--faulted:#451f20;--faulted-edge:#ee6b68}}
body{margin:1.5rem auto;padding:0 1.5rem;background:var(--ground);color:var(--ink);font:15px/1.45 system-ui,sans-serif}
h1{font-size:1.4rem;margin:0 0 1rem;overflow-wrap:anywhere}
h2{font-size:1.1rem;margin:1.5rem 0 .5rem}
pre,code,summary,dt,text{font-family:ui-monospace,SFMono-Regular,Menlo,Consolas,\"DejaVu Sans Mono\",\"Liberation Mono\",monospace}
.plain{--fill:var(--plain);--stroke:var(--plain-edge)}
.done{--fill:var(--done);--stroke:var(--done-edge)}
.waiting{--fill:var(--waiting);--stroke:var(--waiting-edge)}
.faulted{--fill:var(--faulted);--stroke:var(--faulted-edge)}
.why{margin:0 0 1rem;padding:.6rem .9rem;white-space:pre-wrap;overflow-wrap:anywhere;background:var(--fill);
border-left:4px solid var(--stroke);font-size:13px;max-height:40vh;overflow:auto}
.key{margin:.5rem 0;color:var(--faint);font-size:13px}
.key span{padding:.05rem .45rem;border:1px solid var(--stroke);border-radius:4px;background:var(--fill);color:var(--ink)}
.picture{overflow:auto;max-height:85vh;border:1px solid var(--edge);border-radius:6px}
svg{display:block}
svg a{text-decoration:none}
text{fill:var(--ink);font-size:12px}
.box{fill:var(--fill);stroke:var(--stroke);stroke-width:1.5}
a:hover .box,a:focus .box{stroke-width:3}
.name{font-weight:700}
.options,.port{fill:var(--faint)}
.port{font-size:11px}
.label{font-size:11px;paint-order:stroke;stroke:var(--ground);stroke-width:2px;stroke-linejoin:round}
.link{fill:none;stroke:var(--link);stroke-width:1.5}
.link:hover{stroke-width:3}
.loose{stroke-dasharray:5 4}
.tip{fill:var(--link)}
details{margin:.35rem 0;border:1px solid var(--edge);border-left:4px solid var(--stroke);border-radius:4px}
details:target{outline:2px solid var(--stroke)}
summary{padding:.35rem .6rem;cursor:pointer;white-space:pre-wrap;overflow-wrap:anywhere;font-size:13px;background:var(--fill)}
dl{margin:.4rem .8rem .7rem}
dt{margin-top:.5rem;color:var(--faint);font-size:13px;overflow-wrap:anywhere}
dd{margin:.15rem 0 0 1rem;overflow-wrap:anywhere}
dd code{display:inline-block;max-width:100%;margin:.1rem .1rem;padding:0 .3rem;border:1px solid var(--edge);border-radius:3px;
font-size:12px;white-space:pre-wrap;unicode-bidi:isolate}
@media print{.picture{overflow:visible;max-height:none;border:0}}
";
