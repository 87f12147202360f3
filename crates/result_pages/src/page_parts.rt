//! The plain HTML of a page, between its style sheet, the texts of its plans and its script.

/// From the first byte to the style sheet. The policy lets the browser use this one sheet and this one script, by their
/// hashes, and nothing else; `bench/page_hashes.py` makes them.
pub(crate) const PAGE_START: &[u8] = br##"<!DOCTYPE html>
<html lang="en">
<head>
<meta charset="utf-8">
<meta http-equiv="Content-Security-Policy" content="default-src 'none'; script-src 'sha256-P5Ye7T71exnDzmXyfM6HHFj1sHjZe32wqtJEBHFCYrg='; style-src 'sha256-GCFpvdUDbvoMXrGt5NVoiYmqPme22d84me8v9SMj4B0='; base-uri 'none'; form-action 'none'">
<meta name="viewport" content="width=device-width,initial-scale=1">
<title>Energy plan</title>
<style>"##;

/// From the style sheet to the first plan: stripes and dots, the places that the script fills, and sentences that it takes its pick of.
pub(crate) const PAGE_BODY: &[u8] = br##"</style>
</head>
<body>
<svg class="defs" width="0" height="0" aria-hidden="true"><defs>
<pattern id="q1" width="6" height="6" patternUnits="userSpaceOnUse" patternTransform="rotate(45)"><rect width="2.4" height="6"/></pattern>
<pattern id="q2" width="6" height="6" patternUnits="userSpaceOnUse"><circle cx="3" cy="3" r="1.6"/></pattern>
</defs></svg>
<a class="skip" href="#main">To the results</a>
<header id="head"></header>
<template id="least">This plan meets every equation of the model exactly, and no other plan that does costs less, not by a millionth. Both were checked in fractions of whole numbers; nothing was rounded on the way.</template>
<template id="near">This plan meets every equation of the model exactly, and no plan that does costs less than the bound: so a cheaper one saves @ at most. Both were checked in fractions of whole numbers.</template>
<template id="both-least">Both plans are proved to be the cheapest of their data. So this is what the change of the data costs, or saves where it is below 0.</template>
<template id="not-both-least">Not both plans are proved to be the cheapest of their data. The least cost of each file lies between the bound and the cost of its plan, so the least costs may differ by anything between the two proved numbers; what stands beside them is the difference of the two plans that were found.</template>
<template id="infeasible">
<p class="mark">No plan exists</p>
<p class="say">The limits and demands of this file can&#8217;t all be met, by no plan whatever. This was shown by adding up the model&#8217;s own equations to a contradiction, in whole numbers, without rounding.</p>
<p class="say">To see which few limits clash: <code>osemosys explain FILE</code>.</p>
</template>
<template id="unbounded">
<p class="mark">The cost falls without end</p>
<p class="say">Plans of any lower cost exist: more and more of what stands below lowers the cost, and no limit stops it. Most often a cost has the wrong sign, or a limit is missing.</p>
</template>
<div id="bar" class="bar" role="group" aria-label="What is shown"></div>
<main id="main" tabindex="-1"><p class="nojs">The charts of this page are drawn by a script, which isn&#8217;t running. All that they are drawn from stands below, as text.</p></main>
<section class="data">
<h2>What this page is drawn from</h2>
<p class="say">This text is proved, byte by byte: the file&#8217;s name, its changes where there are any, what <code>osemosys check</code> says, and the tables, which <code>osemosys table FILE PROOF page</code> prints where there is a plan. The charts above are drawn from it by the script of this page, of which nothing is proved.</p>
"##;

/// Before the name of a plan's data file.
pub(crate) const PLAN_NAME: &[u8] = br##"<div class="plan"><h3 class="name">"##;

/// After that name.
pub(crate) const NAME_END: &[u8] = br##"</h3>
"##;

/// Before what a file of changes says, where there is one.
pub(crate) const CHANGES_START: &[u8] = br##"<pre class="changes">
"##;

/// After it.
pub(crate) const CHANGES_END: &[u8] = br##"</pre>
"##;

/// Before what is said of the plan.
pub(crate) const PLAN_SAID: &[u8] = br##"<pre class="said">
"##;

/// From what is said of a plan to its tables.
pub(crate) const PLAN_TABLES: &[u8] = br##"</pre>
<details><summary>Tables</summary><pre class="tables" tabindex="0">
"##;

/// After the tables of a plan.
pub(crate) const PLAN_END: &[u8] = br##"</pre>
</details></div>
"##;

/// From the last plan to what is compared, which is empty on the page of one plan.
pub(crate) const COMPARED: &[u8] = br##"<pre class="compared">
"##;

/// From what is compared to the script: the foot, whose notes are on one plan, on two or on both, and the places of what the pointer tells,
/// and of what is read aloud.
pub(crate) const SCRIPT_START: &[u8] = br##"</pre>
</section>
<footer id="foot" hidden>
<h2>How to read this page</h2>
<ul>
<li class="both"><b>Numbers</b> are those of the plan, rounded to six decimal places; sums on this page are sums of these, and what is told under the pointer and in headlines is rounded further. 0 stands as 0. Units are those of the data file.</li>
<li class="two"><b>Changes</b> are the value in the second plan less the value in the first; less than two millionths isn&#8217;t told, since it may come of rounding alone. Another plan of the same cost may differ otherwise, and where several numbers of the data were changed, no difference is shown to come of a single one of them.</li>
<li class="two"><b>What is proved</b> is what stands beside the headline: between which two numbers the least costs of the two files differ, and the text that this page is drawn from.</li>
<li class="two"><b>Names</b> decide what is the same region, technology, fuel, emission or year. One that a file doesn&#8217;t have counts as 0 in its plan.</li>
<li class="both"><b>Discounted</b> money is worth at the beginning of the first year. Investments count at the beginning of their year, running costs and penalties in its middle, salvage values after the last year.</li>
<li class="both"><b>Capacity</b> stands by what it makes. A technology that makes several fuels stands at each of them. A technology has one colour and pattern on the whole page, and in every page of the same data file.</li>
<li class="both"><b>Other</b> stands for the smallest series of a picture: those beyond the number that is chosen, and those whose every value is below a ten-thousandth of all. The numbers have each by itself.</li>
<li class="one"><b>Prices</b> are proved from below: if more of a fuel is asked for in a timeslice, every plan costs at least the bound and the price times the amount more, discounted. That this is reached isn&#8217;t promised. A price that isn&#8217;t listed is 0.</li>
<li class="one"><b>What looser limits save</b> is proved from above: with the limit looser by some amount, no plan costs less than the bound less that much.</li>
<li class="both"><b>All regions together</b> are their sums; trade between them, limits on emissions and prices stand with each region.</li>
<li class="both"><code>osemosys table FILE PROOF page | sha256sum</code> prints the same, of the files and with the options that this page was made of.</li>
</ul>
</footer>
<div id="tip" class="tip" hidden></div>
<p id="live" class="vh" role="status"></p>
<script>"##;

/// After the script.
pub(crate) const PAGE_END: &[u8] = br##"</script>
</body>
</html>
"##;
