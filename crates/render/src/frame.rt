// The constant parts of the page: head, style, caveat, legend, script. Nothing is loaded from anywhere; the page's own policy lets only
// this script run, by its hash (tests/page compares it).
use crate::Cleaning;
use crate::sink::{Output, Unwritten, count_of, put, put_escaped, put_number, put_text};
use caution_words::{count_cautioned, silence};
use tallies::count_sizes;
use text::same;

// Wide: raw and cleaned side by side. Below 700 pixels each cleaned line stands above the raw line that it was. The number of a cleaned
// line, which has three digits at most, has room for a sign before it.
fn put_style(out: Output) -> Result<(), Unwritten> {
    put(
        out,
        b"<style>\n\
          :root{--ink:#1b2330;--soft:#586273;--rule:#dde2e9;--line:#eef1f5;--paper:#fff;--gone:#fbeae7;--gonei:#a3301f;\
          --chg:#fff5da;--chgi:#856000;\n\
          --cut:#dcf2ef;--cuti:#0b6b63;--src:#d6e6ff;--srci:#1a5fd0;--num:#7a3e9d;--sym:#1c5a7d;--yes:#1c7a3d;--no:#b00020;--warn:#a8480b;\
          --bar:60px}\n\
          @media screen and (prefers-color-scheme:dark){:root{color-scheme:dark;--ink:#e3e8ef;--soft:#a4afbe;--rule:#37414e;\
          --line:#252c36;--paper:#14181e;\n\
          --gone:#3b2220;--gonei:#f39b8e;--chg:#382f16;--chgi:#e8c468;--cut:#123632;--cuti:#74d3c7;--src:#17396a;--srci:#84b4ff;\
          --num:#cfa5ec;--sym:#8fc0e6;\n\
          --yes:#62ca8a;--no:#ff8088;--warn:#f0a35e}}\n\
          *{box-sizing:border-box}\n\
          body{font:14px/1.5 system-ui,'Segoe UI','DejaVu Sans',sans-serif;color:var(--ink);background:var(--paper);margin:0 \
          auto;max-width:1720px;padding:20px 24px 60px}\n\
          h1{font-size:20px;margin:0 0 2px;overflow-wrap:anywhere}h2{font-size:18px;margin:36px 0 8px}h3{font-size:14px;\
          margin:18px 0 6px}\n\
          h1 i,td.w i{font-family:ui-monospace,Menlo,Consolas,'DejaVu Sans Mono',monospace}\n\
          i{font-style:normal}.k0{color:var(--soft);font-style:italic}.k2{color:var(--num)}.k3{font-weight:600}.k4{\
          color:var(--sym)}\n\
          p{margin:4px 0 10px;color:var(--soft)}p b{color:var(--ink);font-weight:600}\n\
          p.v{color:var(--ink);border:1px solid var(--chgi);border-left-width:4px;padding:6px 12px;margin:8px 0;\
          break-inside:avoid;break-after:avoid}\n\
          .key{display:inline-block;min-width:1.7em;padding:0 .35em;margin:0 .25em 0 1em;border:1px solid var(--rule);\
          border-radius:3px;text-align:center;\n\
          font-family:ui-monospace,'DejaVu Sans Mono',monospace;color:var(--ink)}.key:first-of-type{margin-left:0}\n\
          .kg{background:var(--gone);color:var(--gonei)}.kc{background:var(--chg);color:var(--chgi)}.ku{background:var(--cut);\
          color:var(--cuti)}\n\
          .ks{background:var(--src);color:var(--srci)}.kw{background:var(--warn);color:var(--paper);font-weight:700}\n\
          #b{position:sticky;top:0;z-index:2;display:flex;flex-wrap:wrap;align-items:center;gap:4px 16px;\
          background:var(--paper);border:1px solid var(--rule);\n\
          border-left:4px solid var(--srci);padding:5px 12px;margin:10px 0}\n\
          #m{flex:1 1 28em;min-height:21px}#f{display:flex;flex-wrap:wrap;align-items:center;gap:4px 8px}[hidden]{\
          display:none!important}\n\
          button,input{font:13px/1.4 system-ui,'DejaVu Sans',sans-serif;color:var(--ink);background:var(--paper);border:1px \
          solid var(--soft);border-radius:3px;padding:2px 8px}\n\
          input{width:15.5em}button{cursor:pointer}button:hover{border-color:var(--srci)}#r{color:var(--soft);min-width:4.5em}\n\
          #t{border-collapse:collapse;table-layout:fixed;width:100%;font:12.5px/1.55 ui-monospace,Menlo,Consolas,'DejaVu Sans \
          Mono',monospace}\n\
          #t th{font:600 12px/1.5 system-ui,'DejaVu Sans',sans-serif;text-align:left;padding:4px 6px;border-bottom:2px solid \
          var(--ink)}\n\
          #t td{vertical-align:top;padding:1px 6px;border-bottom:1px solid var(--line);scroll-margin:var(--bar) 0 8px}\n\
          #t[data-pick=o] td:not(.o),#t[data-pick=c] td:not(.c){user-select:none}\n\
          col.n{width:40px}col.a{width:82px}col.s{width:22px}col.i{width:88px}col.m{width:56px}col.p{width:156px}\n\
          td.n,td.m{text-align:right;color:var(--soft);user-select:none}td.a,td.p,td.i{color:var(--soft);font-size:11px;\
          line-height:19px;overflow-wrap:anywhere}\n\
          #t td.s{text-align:center;padding:1px 0;font-weight:700}td.m,th.m{border-left:2px solid var(--rule)}\n\
          #t td.c,#t td.o{white-space:pre-wrap;overflow-wrap:anywhere;padding-left:calc(6px + 2ch + min(var(--d,0),14)*2ch);\
          text-indent:-2ch}\n\
          tr.gone .c,tr.gone .s,tr.gone .i{background:var(--gone)}tr.gone .s,tr.gone .i{color:var(--gonei)}\n\
          tr.changed .c,tr.changed .o,tr.changed .s{background:var(--chg)}tr.changed .s{color:var(--chgi)}\n\
          tr.cut .c,tr.cut .o,tr.cut .s{background:var(--cut)}tr.cut .s{color:var(--cuti)}\n\
          td.o[data-q],#t.live td.c{cursor:pointer}td.o[data-q]:hover,#t.live td.c:hover{box-shadow:inset 0 0 0 1px var(--srci)}\
          \n\
          td.o:focus{outline:2px solid var(--srci);outline-offset:-2px}\n\
          #t tr.src td.c,#t tr.src td.n,#t tr.src td.a,#t tr.src td.s{background:var(--src);color:var(--ink)}tr.src \
          td.n::before{content:'\\25B8';float:left;color:var(--srci)}\n\
          td.m b{float:left;background:var(--warn);color:var(--paper);border-radius:3px;padding:0 4px;font-size:11px;\
          line-height:17px;cursor:pointer}\n\
          #t.live tr.w{display:none}#t.live tr.told+tr.w,#t.live tr:focus-within+tr.w{display:table-row}\n\
          #t td.w{border-left:3px solid var(--warn);padding:2px 8px 5px;font:12px/1.45 system-ui,'DejaVu Sans',sans-serif}#t td.w \
          p{margin:0;color:var(--ink)}\n\
          #t td.o.on{background:var(--src);box-shadow:inset 4px 0 0 var(--srci)}\n\
          #t tr.hit td.c,#t tr.hit td.o,#t tr.hit td.a{text-decoration:underline 2px var(--srci);text-underline-offset:3px}\n\
          .four{display:grid;grid-template-columns:repeat(auto-fit,minmax(min(270px,100%),1fr));gap:0 32px;align-items:start}\n\
          table.q{border-collapse:collapse;width:100%;font-size:13px}.q th{text-align:left;vertical-align:top;font-weight:500;\
          color:var(--soft);padding:3px 8px 3px 0}\n\
          .q thead th{border-bottom:1px solid var(--ink);font-size:12px}.q td{padding:3px 8px 3px 0;border-top:1px solid \
          var(--line);overflow-wrap:anywhere;vertical-align:top}\n\
          .q td.d{text-align:right;font-variant-numeric:tabular-nums;white-space:nowrap}.q thead th:nth-child(n+3){\
          text-align:right}.g thead th:nth-child(n+3){text-align:left}\n\
          td.y{color:var(--yes);font-weight:700;width:2.6em}td.x{color:var(--no);font-weight:700;width:2.6em}.g td.h{width:24em;\
          color:var(--soft)}.q td{min-width:2em}\n\
          code{font-size:12px;color:var(--soft)}.z{max-width:100ch}\n\
          @media screen and (max-width:1000px){body{padding:14px 12px 40px}#t td,#t th{padding-left:4px;padding-right:4px}td.a,\
          td.p,td.i{font-size:10px}\n\
          col.n{width:32px}col.a{width:62px}col.s{width:16px}col.i{width:44px}col.m{width:50px}col.p{width:112px}td.p{\
          font-size:9.5px}}\n\
          @media screen and (max-width:700px){body{padding:12px 10px 40px}h1{font-size:17px}\n\
          #m{flex-basis:100%}#f{width:100%}#f label{flex:1 1 auto}input{width:100%}\n\
          #t,#t tbody{display:block}#t thead,#t colgroup{display:none}\n\
          #t tr{display:grid;grid-template-columns:4em 1.3em 1fr;padding:3px 0;border-bottom:1px solid var(--rule)}#t td{\
          border:0;padding:1px 4px}\n\
          #t td.m{grid-area:1/1}#t td.o{grid-area:1/2/2/4}#t td.p{grid-area:2/2/3/4}#t td.n{grid-area:3/1}#t td.s{grid-area:3/2}\
          #t td.c{grid-area:3/3}\n\
          #t td.a,#t td.i{grid-area:4/3}#t td.i{justify-self:end}td.a,td.p,td.i{font-size:11px}#t td.a:empty,#t td.p:empty,#t \
          td.i:empty,#t tr.gone td.m,#t tr.gone td.o{display:none}\n\
          #t td.o{font-size:13.5px}#t td.c,#t td.o{padding-left:calc(4px + 2ch + min(var(--d,0),6)*1.5ch)}td.m{color:var(--ink);\
          font-weight:600}tr.kept td.c{color:var(--soft)}\n\
          #t tr.w,#t.live tr.told+tr.w,#t.live tr:focus-within+tr.w{display:block;padding:0 0 6px}#t.live tr.w{display:none}#t tr.w \
          td:not(.w){display:none}\n\
          .g,.g tbody,.g tr,.g td{display:block}.g thead{display:none}.g tr{position:relative;padding:4px 0 4px 1.8em;\
          border-top:1px solid var(--line)}.q.g td{border:0;width:auto;padding:0}\n\
          .g td:first-child{position:absolute;left:0}.g td.h{width:auto}}\n\
          @media print{@page{size:A4 landscape;margin:10mm}body{padding:0;font-size:10px}#b.idle,#f{display:none}#b{\
          position:static}\n\
          h1{font-size:14px}h2{font-size:13px;margin-top:0}h3{font-size:11px;margin:10px 0 3px}h1,h2,h3,p.l,#b{\
          break-after:avoid}section{break-before:page}\n\
          #t{font-size:8.5px}#t th{font-size:9px}#t td.a,#t td.p,#t td.i{font-size:7.5px;line-height:13px}\n\
          col.n{width:28px}col.a{width:60px}col.s{width:16px}col.i{width:56px}col.m{width:42px}col.p{width:108px}\n\
          .four{grid-template-columns:repeat(4,1fr);gap:0 20px}table.q,.q thead th{font-size:9px;line-height:1.35}.q th,.q td{\
          padding:1px 8px 1px 0}code{font-size:8.5px}.z{margin:2px 0 4px}\n\
          #t.live tr.w,#t tr.w{display:table-row;break-before:avoid}#t td.w{font-size:8px;padding:0 6px 2px}td.m b{\
          font-size:8px;line-height:11px;padding:0 3px}\n\
          thead{display:table-header-group}tr{break-inside:avoid}td.o:focus{outline:none}\n\
          *{print-color-adjust:exact;-webkit-print-color-adjust:exact}}\n\
          </style>\n",
    )
}

// The file's name, or what stands for it.
// Kept: beside `tell_name` of crate command: this goes onto the page, escaped, that to standard error: they share the test for a dash.
fn shown_name(name: &[u8]) -> &[u8] {
    if same(name, b"-") {
        b"standard input"
    } else {
        name
    }
}

// The name without the folders before it.
fn base_name(name: &[u8]) -> &[u8] {
    name.rsplit(|b| *b == b'/').next().unwrap_or(name)
}

// What no tick says stands first, before the listings.
fn put_caveat(out: Output, profile: bool) -> Result<(), Unwritten> {
    put(
        out,
        b"<p class=v><b>A cleaned listing need not mean the same as the raw one.</b> ",
    )?;
    if profile {
        put(
            out,
            b"What this formula returns is the same, by the last tick below; nothing else is promised of its values. ",
        )?;
    }
    put(
        out,
        b"Stores to stack slots and to argument registers may go with their lines; the known differences are in Puchkewa's \
          docs/DIFFERENCES.md. Where a decision hangs on a value, look at the instructions.</p>\n",
    )
}

// How many cleaned lines are cautioned, of how many, and what it means where one is not.
fn put_cautioned(out: Output, cleaning: &Cleaning) -> Result<(), Unwritten> {
    put(out, b"<p class=l id=w><b>Cautioned lines: ")?;
    put_number(out, count_of(count_cautioned(cleaning.cautions)))?;
    put(out, b" of ")?;
    put_number(out, count_of(count_sizes(cleaning.cleaned).lines))?;
    put(
        out,
        b"</b>. Each has the sign <span class=\"key kw\">!</span> and its words below it: click it. Of a line without one: ",
    )?;
    put(out, silence())?;
    put(out, b".</p>\n")
}

// The legend, the bar that tells what is marked, and the head of the two listings.
fn put_legend(out: Output) -> Result<(), Unwritten> {
    put(
        out,
        b"<p class=l><span class=\"key kg\">&minus;</span>joined into the cleaned lines behind its arrow, and gone <span \
          class=\"key kc\">~</span>rewritten <span class=\"key ku\">/</span>its result is cut <span class=\"key\">&nbsp;\
          </span>as it was <span class=\"key ks\">&#9656;</span>came into the cleaned line that is marked</p>\n\
          <div id=b class=idle><div id=m aria-live=polite>Click a line, or Tab and the arrow keys: the raw lines that came into \
          a cleaned line are marked. Escape takes the mark away.</div><div id=f hidden><button id=y type=button hidden>Copy \
          with its raw lines</button><label><input id=s type=search placeholder=\"Text or address, Enter\" aria-label=\"Find a \
          text or an address\"></label><span id=r aria-live=polite></span></div></div>\n\
          <table id=t><colgroup><col class=n><col class=a><col class=s><col><col class=i><col class=m><col><col \
          class=p></colgroup>\n\
          <thead><tr><th></th><th>address</th><th></th><th>raw</th><th>into</th><th class=m></th><th>cleaned</th><th>code from \
          .. to</th></tr></thead>\n\
          <tbody>\n",
    )
}

pub(crate) fn put_head(out: Output, cleaning: &Cleaning) -> Result<(), Unwritten> {
    let name = shown_name(cleaning.name);
    put(
        out,
        b"<!DOCTYPE html>\n\
          <html lang=en>\n\
          <head>\n\
          <meta charset=utf-8>\n\
          <meta http-equiv=\"Content-Security-Policy\" content=\"default-src 'none'; style-src 'unsafe-inline'; script-src \
          'sha256-Hbdv+Y7F5P7HkAFyPpHX+01lV60eUGvzTLo1dfx10Uk='\">\n\
          <meta name=viewport content=\"width=device-width\">\n\
          <title>",
    )?;
    put_escaped(out, base_name(name))?;
    put(out, b": before and after</title>\n")?;
    put_style(out)?;
    put(out, b"</head>\n<body>\n<h1>Before and after: ")?;
    put_text(out, 8, name)?;
    put(out, b"</h1>\n")?;
    put_caveat(out, cleaning.rules.profile)?;
    put_cautioned(out, cleaning)?;
    put_legend(out)
}

pub(crate) fn put_middle(out: Output) -> Result<(), Unwritten> {
    put(out, b"</tbody></table>\n")
}

pub(crate) fn put_foot(out: Output) -> Result<(), Unwritten> {
    put(
        out,
        b"<script>\n\
          (function(){'use strict';\n\
          function $(i){return document.getElementById(i);}\n\
          var t=$('t'),b=$('b'),m=$('m'),y=$('y'),s=$('s'),r=$('r'),idle=m.textContent,on=null,asked=null,hit=null;\n\
          var rows=Array.from(t.querySelectorAll('tr[data-k]')),cells=Array.from(t.querySelectorAll('td.o[data-q]')),at={};\n\
          cells.forEach(function(x,i){x.tabIndex=i?-1:0;at[x.dataset.q]=x;});\n\
          t.classList.add('live');$('f').hidden=false;\n\
          function into(row){return row.dataset.into.split(' ').filter(Boolean);}\n\
          function from(q){return rows.filter(function(row){return into(row).indexOf(q)>=0;});}\n\
          function part(row,c){return row.querySelector('td.'+c).textContent;}\n\
          function clear(){rows.forEach(function(row){row.classList.remove('src');});\
          if(on){on.classList.remove('on');on.parentNode.classList.remove('told');}on=null;\
          \n\
          m.textContent=idle;b.className='idle';y.hidden=true;}\n\
          function mark(x){clear();var q=x.dataset.q,f=from(q);f.forEach(function(row){row.classList.add('src');});on=x;\
          x.classList.add('on');x.parentNode.classList.add('told');\n\
          b.className='';y.hidden=false;y.textContent='Copy with its raw lines';\n\
          m.textContent='Cleaned line '+q+': from raw line'+(f.length==1?' ':'s ')+f.map(function(row){return row.dataset.k;}\
          ).join(', ')+'; '+\n\
          (x.dataset.span?'code from '+x.dataset.span.replace('..',' to '):'no address came into it')+'.';}\n\
          function bar(){var h=b.offsetHeight;document.documentElement.style.setProperty('--bar',h+8+'px');return h;}\n\
          function show(x){var h=bar(),f=from(x.dataset.q)[0];x.scrollIntoView({block:'nearest'});\n\
          var z=x.getBoundingClientRect();\
          if(f&&f.getBoundingClientRect().top<h&&z.bottom-f.getBoundingClientRect().top<innerHeight-h-16){\
          f.cells[3].scrollIntoView();}}\n\
          function go(x){cells.forEach(function(c){c.tabIndex=c===x?0:-1;});x.focus({preventScroll:true});mark(x);show(x);}\n\
          function turn(row){var q=into(row),k=row.dataset.k,i=asked===row&&on?(q.indexOf(on.dataset.q)+1)%q.length:0;asked=row;\
          \n\
          if(!q.length){clear();m.textContent='Raw line '+k+' came into no cleaned line.';return;}\n\
          go(at[q[i]]);if(q.length>1){m.textContent+=' Raw line '+k+' came into '+q.length+' cleaned lines: click it again for \
          the next.';}}\n\
          t.addEventListener('click',function(e){if(!getSelection().isCollapsed){return;}\n\
          var u=e.target.closest('td.m'),x=u?u.parentNode.querySelector('td.o[data-q]'):e.target.closest('td.o[data-q]'),\
          row=e.target.closest('tr[data-k]');if(x){asked=null;go(x);}else if(row){\
          turn(row);}});\n\
          function screen(i,d){var top=cells[i].getBoundingClientRect().top,h=innerHeight-b.offsetHeight-24,j=i;\n\
          while(cells[j+d]&&Math.abs(cells[j+d].getBoundingClientRect().top-top)<=h){j+=d;}return j===i&&cells[i+d]?i+d:j;}\n\
          t.addEventListener('keydown',function(e){var i=cells.indexOf(document.activeElement),n=cells.length-1,j;\n\
          if(i<0||e.ctrlKey||e.metaKey||e.altKey){return;}\n\
          switch(e.key){case 'ArrowDown':j=Math.min(i+1,n);break;case 'ArrowUp':j=Math.max(i-1,0);break;case 'Home':j=0;break;\
          case 'End':j=n;break;\n\
          case 'PageDown':j=screen(i,1);break;case 'PageUp':j=screen(i,-1);break;\n\
          case 'Enter':if(on===cells[i]){clear();}else{mark(cells[i]);}break;case 'Escape':clear();break;default:return;}\n\
          e.preventDefault();asked=null;if(j>=0&&(j!==i||!on)){go(cells[j]);}});\n\
          function hex(w){return /^[0-9a-f]{1,16}$/.test(w)?BigInt('0x'+w):null;}\n\
          function holds(row,a){var p=part(row,'p').split('..');return p.length==2&&hex(p[0])<=a&&a<=hex(p[1]);}\n\
          function found(w){var a=hex(w.replace(/^0x/,'')),f=rows.filter(function(row){return (a!==null&&hex(part(row,\
          'a'))===a)||\n\
          part(row,'c').toLowerCase().indexOf(w)>=0||part(row,'o').toLowerCase().indexOf(w)>=0;});\n\
          return f.length||a===null?f:rows.filter(function(row){return holds(row,a);});}\n\
          function drop(){if(hit){hit.classList.remove('hit');}hit=null;r.textContent='';}\n\
          function find(d){var w=s.value.trim().toLowerCase(),f=w?found(w):[],i=f.indexOf(hit);drop();if(!w){return;}\n\
          if(!f.length){r.textContent='not found';return;}\n\
          i=i<0?(d<0?f.length-1:0):(i+d+f.length)%f.length;hit=f[i];hit.classList.add('hit');r.textContent=i+1+' of '+f.length;\
          \n\
          var x=hit.querySelector('td.o[data-q]')||at[into(hit)[0]];if(x){mark(x);}bar();hit.cells[3].scrollIntoView({\
          block:'center'});}\n\
          s.addEventListener('keydown',function(e){if(e.key=='Enter'){find(e.shiftKey?-1:1);e.preventDefault();}else \
          if(e.key=='Escape'){s.value='';drop();}});\n\
          s.addEventListener('input',drop);\n\
          function words(x){var w=x.parentNode.nextElementSibling;return \
          w&&w.className=='w'?Array.from(w.querySelectorAll('p')):[];}\n\
          function said(x){var q=x.dataset.q,p=x.dataset.span;return 'cleaned '+q+(p?' ('+p+')':'')+': \
          '+x.textContent+'\\n'+words(x).map(function(p){return '  '+p.textContent+'\\n';}).join('')+from(q).map(function(row){\n\
          var a=part(row,'a');return '  raw '+row.dataset.k+(a?' ('+a+')':'')+': '+part(row,'c')+'\\n';}).join('');}\n\
          function put(e,text){e.clipboardData.setData('text/plain',text);e.preventDefault();e.stopImmediatePropagation();}\n\
          y.addEventListener('click',function(){if(!on){return;}var text=said(on),h=function(e){put(e,text);};\n\
          document.addEventListener('copy',h,true);var done=document.execCommand('copy');document.removeEventListener('copy',h,\
          true);\n\
          y.textContent=done?'Copied':'Not copied';});\n\
          function column(n){var e=n&&(n.nodeType==1?n:n.parentElement),x=e&&e.closest('#t td.o,#t td.c');return \
          x?x.classList.contains('o')?'o':'c':'';}\n\
          document.addEventListener('mousedown',function(e){if(e.button){return;}var c=column(e.target);\n\
          if(t.dataset.pick&&c!==t.dataset.pick){getSelection().removeAllRanges();}t.dataset.pick=c;});\n\
          document.addEventListener('copy',function(e){var g=getSelection(),c=column(g.anchorNode);if(!c||g.isCollapsed){return;\
          }\n\
          var w=g.getRangeAt(0),lines=[];t.querySelectorAll(c=='o'?'td.o[data-q]':'td.c').forEach(function(x){\
          if(!w.intersectsNode(x)){return;}\n\
          var p=document.createRange();p.selectNodeContents(x);var first=x.contains(w.startContainer),\
          last=x.contains(w.endContainer);\n\
          if(first){p.setStart(w.startContainer,w.startOffset);}if(last){p.setEnd(w.endContainer,w.endOffset);}\n\
          var text=p.toString();if(x.textContent&&!text){return;}\n\
          lines.push((first&&last||x.textContent.indexOf(text)?'':'  '.repeat(+x.style.getPropertyValue('--d')))+text);});\n\
          put(e,lines.join('\\n'));});\n\
          })();\n\
          </script>\n\
          </body>\n\
          </html>\n",
    )
}
