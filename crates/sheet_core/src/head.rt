//! The head of the page, with its style sheet.

/// The beginning of the page, up to the paragraphs below its heading.
pub(crate) const HEAD: &str = "<!DOCTYPE html>
<html lang='en'>
<head>
<meta charset='utf-8'>
<meta name='viewport' content='width=device-width,initial-scale=1'>
<title>Local patterns of Go</title>
<style>
:root{color-scheme:light dark;--page:#fff;--ink:#1c1b19;--soft:#6a665f;--wood:#e9c98d;--grid:#6b5328;--outside:#f1efeb}
@media (prefers-color-scheme:dark){:root{--page:#17181b;--ink:#e8e6e1;--soft:#a5a29b;--wood:#b9955a;--grid:#3d2e12;--outside:#232529}}
body{margin:0 auto;padding:1.5rem;max-width:75rem;background:var(--page);color:var(--ink);font:.875rem/1.4 system-ui,sans-serif}
h1{margin:0 0 .5rem;font-size:1.4rem}
p{margin:.25rem 0;max-width:48rem;color:var(--soft)}
main{display:grid;grid-template-columns:repeat(auto-fill,minmax(9.5rem,1fr));gap:1.75rem 1.25rem;margin-top:1.5rem}
figure{margin:0;break-inside:avoid}
svg{display:block;width:100%;print-color-adjust:exact;-webkit-print-color-adjust:exact}
.outside{fill:var(--outside);transform:translate(-.5px,-.5px)}
.wood{fill:var(--wood);stroke:var(--wood);stroke-width:.02;transform:translate(-.5px,-.5px)}
.grid,.edge,.one{fill:none;stroke:var(--grid);stroke-width:.05}
.edge{stroke-width:.14;stroke-linecap:square}
.black{fill:#111;stroke:#000;stroke-width:.03}
.white{fill:#fafafa;stroke:#333;stroke-width:.03}
.one{stroke:#fff;stroke-width:.09;stroke-linecap:round;stroke-linejoin:round}
figcaption{margin-top:.4rem;font-size:.8125rem;font-variant-numeric:tabular-nums;white-space:nowrap}
b{font-size:.9375rem}
code{-webkit-user-select:all;user-select:all}
ul{margin:.25rem 0 0;padding:0;list-style:none;font-size:.75rem;overflow-wrap:anywhere}
@media print{:root{--page:#fff;--ink:#000;--soft:#444;--wood:#e9c98d;--grid:#6b5328;--outside:#f1efeb}body{padding:0;max-width:none;font-size:9pt}main{grid-template-columns:repeat(5,1fr);gap:4mm;margin-top:4mm}figcaption,b{font-size:8pt}figure:nth-child(20n){break-after:page}}
@page{margin:12mm}
</style>
</head>
<body>
<h1>Local patterns of Go</h1>
";
