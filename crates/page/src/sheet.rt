//! The style of a page.

/// The style sheet of a page.
pub(crate) static SHEET: &str = "\
:root{color-scheme:light dark;--bg:#fff;--fg:#1f2328;--dim:#59636e;--line:#d1d9e0;--panel:#f6f8fa;--box:#edf4fc;--edge:#57606a;--link:#0550ae;--a:#116329;--abg:#dafbe1;--u:#7d4e00;--ubg:#fff1c2;--r:#a40e26;--rbg:#ffe3e0;--f:#6e2ab5;--fbg:#efe3ff}
@media(prefers-color-scheme:dark){:root{--bg:#0d1117;--fg:#e6edf3;--dim:#9da7b3;--line:#3d444d;--panel:#161b22;--box:#172230;--edge:#9da7b3;--link:#79c0ff;--a:#7ee787;--abg:#0f3b1d;--u:#f2cc60;--ubg:#43330a;--r:#ffa198;--rbg:#5c1a1a;--f:#d2a8ff;--fbg:#3b2160}}
*{box-sizing:border-box}
body{margin:0;background:var(--bg);color:var(--fg);font:1rem/1.5 system-ui,sans-serif;overflow-wrap:anywhere}
body>header,section,nav,main>.refused{padding:1rem clamp(.75rem,3vw,2rem)}
a{color:var(--link)}
h1,h2{margin:0;line-height:1.25}
h1{font-size:1.4rem}
h2{font-size:1.2rem}
p{margin:.4rem 0}
header p a{margin-right:1rem}
section{position:relative;border-top:1px solid var(--line)}
@media screen{@supports selector(:has(a)){section{display:none}section:target,section:has(:target),main:not(:has(:target))>section:first-of-type{display:block}}}
section h2::before{content:'';float:right;width:10rem;height:2.2rem}
.prev,.next{position:absolute;top:.8rem;padding:.3rem .7rem;border:1px solid var(--line);border-radius:.4rem;background:var(--panel);text-decoration:none;font-size:.9rem}
.prev{right:calc(clamp(.75rem,3vw,2rem) + 4.2rem)}
.next{right:clamp(.75rem,3vw,2rem)}
a:focus-visible,summary:focus-visible{outline:2px solid var(--link);outline-offset:2px}.outline summary:focus-visible{outline-offset:-2px}html,nav,.outline,.events ol{scroll-padding:.5rem}
.cause,.note,small{color:var(--dim)}
.refused{color:var(--r);background:var(--rbg);padding:.5rem .8rem;border-radius:.4rem}
em{font-style:normal;font-size:.85em;font-weight:600;padding:.05em .45em;border-radius:.6em;white-space:nowrap}
em.a{color:var(--a);background:var(--abg)}
em.u{color:var(--u);background:var(--ubg)}
em.r{color:var(--r);background:var(--rbg)}
em.f{color:var(--f);background:var(--fbg)}
em.h{color:var(--dim);border:1px dashed var(--dim)}
q{quotes:'\\201c' '\\201d'}code{font-size:.9em}
q.v{color:var(--dim)}
q.v::before{content:'= ' open-quote}
i.w{font-style:italic}
.events{margin:.6rem 0}
.events ol{margin:.1rem 0;padding:.2rem .2rem .2rem 2.2rem;max-height:24vh;overflow:auto}
.state{display:grid;gap:1rem;margin-top:.6rem}
.outline,.outline ul{margin:0;padding:0;list-style:none;min-width:0}
.outline ul.in{padding-left:min(1.1rem,4%)}
.outline summary,.outline li.e{padding:.1rem .4rem;border-left:2px solid var(--line)}
.outline summary{cursor:pointer}.outline li.e{padding-left:1.5rem}
.outline li.a>details>summary,.outline li.a.e{border-color:var(--a)}
.outline li.u>details>summary,.outline li.u.e{border-color:var(--u)}
.outline li.x b,.outline li.x q{color:var(--dim);font-weight:400}
.outline li:target>details>summary,.outline li.e:target{background:var(--fbg)}
figure{margin:0;min-width:0;order:-1}
figcaption{color:var(--dim);font-size:.9rem}
figure>svg{display:block;width:100%;height:auto;max-height:60vh;background:var(--panel);border:1px solid var(--line);border-radius:.4rem}
rect{fill:var(--box);stroke:var(--edge);stroke-width:1;vector-effect:non-scaling-stroke;fill-opacity:.85}
rect.t{fill:none;stroke-dasharray:2 3}rect.a{fill:var(--abg);stroke:var(--a);stroke-width:2.5}rect.u{fill:var(--ubg);stroke:var(--u);stroke-width:2.5;stroke-dasharray:9 3}rect.ring{fill:none;stroke:var(--f);stroke-width:4}
text{fill:var(--fg);text-anchor:middle;dominant-baseline:central}text.l{text-anchor:start}
@media(min-width:60rem){.state{grid-template-columns:minmax(0,1fr) minmax(0,1fr)}figure{order:0;position:sticky;top:1rem;align-self:start}figure>svg,.outline{max-height:82vh}.outline{overflow:auto}}@media print{.outline{max-height:none}}@media(min-width:90rem){body{display:grid;grid-template-columns:17rem minmax(0,1fr);grid-template-areas:'h h' 'n m'}body>header{grid-area:h}main{grid-area:m;min-width:0;border-left:1px solid var(--line)}nav{grid-area:n;position:sticky;top:0;align-self:start;max-height:100vh;overflow:auto}}
";
