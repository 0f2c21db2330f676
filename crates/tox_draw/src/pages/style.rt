//! The style of the page.

/// The page up to its title.
pub(crate) const PAGE_START: &str = "\
<!DOCTYPE html>
<html lang=\"en\">
<head>
<meta charset=\"utf-8\"/>
<meta name=\"viewport\" content=\"width=device-width, initial-scale=1\"/>
<title>";

/// Behind the title, up to the style of its pictures.
pub(crate) const PAGE_STYLE: &str = "\
</title>
<style>
:root{color-scheme:light dark}
body{margin:0;background:#fff;color:#1f2328;font:16px/1.5 system-ui,-apple-system,\"Segoe UI\",Roboto,Helvetica,Arial,sans-serif}
main{max-width:1400px;margin:0 auto;padding:16px}
h1{font-size:24px;line-height:1.25;margin:0 0 16px;overflow-wrap:anywhere}
h2{font-size:20px;line-height:1.25;margin:32px 0 16px}
h3{font-size:16px;line-height:1.25;margin:32px 0 8px;overflow-wrap:anywhere}
dl{display:flex;flex-wrap:wrap;gap:8px;margin:0 0 24px}
dl div{border:1px solid #d1d9e0;border-radius:6px;padding:4px 12px}
dt{color:#59636e;font-size:13px}
dd{margin:0;font-variant-numeric:tabular-nums}
.wide{overflow-x:auto}
table{border-collapse:collapse;font-size:14px}
caption{color:#59636e;padding:0 0 8px;text-align:left}
th,td{border-bottom:1px solid #d1d9e0;padding:4px 10px;text-align:left;vertical-align:top;white-space:nowrap}
td.toxics{min-width:120px;overflow-wrap:anywhere;white-space:normal}
.number{font-variant-numeric:tabular-nums;text-align:right}
.marked th{border-left:4px solid #cf222e}
.verdict{color:#cf222e;font-weight:600}
figure{margin:24px 0}
figcaption{font-weight:600;margin:0 0 8px;overflow-wrap:anywhere}
.toxi-draw{display:block;height:auto;min-width:640px;width:100%;max-width:960px}
a{color:#0969da}
@media(prefers-color-scheme:dark){
body{background:#0d1117;color:#f0f6fc}
dl div,th,td{border-color:#3d444d}
dt,caption{color:#9198a1}
.marked th{border-left-color:#f85149}
.verdict{color:#f85149}
a{color:#4493f8}
}
</style>
";
