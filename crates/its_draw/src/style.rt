//! The colours of a picture, and its signs.

/// How the elements of each class look, by day and by night, and the outlines of the signs.
pub const STYLE: &str = "<style>
svg{--ground:#fff;--ink:#22252a;--dim:#646a73;--line:#d9d5cc;--bad:#b3261e;--step:#3b5bdb}
svg{--tick:#8b9199;--v0:#1f7a4d;--v1:#8e3fc0;--v2:#b45309;--v3:#0b7285;background:var(--ground)}
@media(prefers-color-scheme:dark){
svg{--ground:#1d2025;--ink:#e4e6ea;--dim:#a0a6ae;--line:#363a41;--bad:#ff8a80;--step:#8aa4ff}
svg{--tick:#7a8089;--v0:#5cc98f;--v1:#d3a4f0;--v2:#f0a35e;--v3:#66c7d6}
}
text{font:11px system-ui,'DejaVu Sans',sans-serif;fill:var(--ink);dominant-baseline:middle}
.small{font-size:10px}.v0{--own:var(--v0)}.v1{--own:var(--v1)}.v2{--own:var(--v2)}
.v3{--own:var(--v3)}.call{--own:var(--dim)}text.v0,text.v1,text.v2,text.v3{fill:var(--own)}
text[transform]{translate:5px -7px}
text.dim{fill:var(--dim)}text.badly{fill:var(--bad)}.lane{stroke:var(--line)}
.wall{stroke:var(--line);stroke-dasharray:3 3}.leg{stroke:var(--dim);stroke-width:3}
.bar{fill:var(--step);fill-opacity:.18;stroke:var(--step);stroke-opacity:.45}
.cut{stroke:var(--bad);stroke-width:2}.full{fill:var(--own)}.move,.step{fill:var(--step)}
.hollow{fill:none;stroke:var(--own)}.sent{stroke:var(--own);stroke-width:1.5}
.took{stroke:var(--own);stroke-dasharray:2 2}
.ring{fill:var(--ground);stroke:var(--own);stroke-width:2}
.lost{fill:none;stroke:var(--bad);stroke-width:1.5}
.cross{fill:none;stroke:var(--bad);stroke-width:2}
.idle{fill:none;stroke:var(--tick)}.bad{fill:none;stroke:var(--bad);stroke-width:2}
.save{fill:none;stroke:var(--step);stroke-width:1.5}.tick{stroke:var(--tick);stroke-width:2}
</style>
<defs>
<circle id='dot' r='5'/><circle id='spot' r='3'/><path id='tick' d='M0 -5v10'/>
<path id='arrow' d='M-4 -7h8l-4 7z'/><path id='up' d='M0 -6l6 10h-12z'/>
<path id='cross' d='M-4 -4l8 8m0 -8l-8 8'/><path id='chest' d='M-6 -5h12v10h-12z'/>
<rect id='square' x='-5' y='-5' width='10' height='10' rx='2'/>
<path id='diamond' d='M0 -7l4 7l-4 7l-4 -7z'/>
</defs>
";
