//! The document of the page. `page/embed.py` writes this file.

/// The text of `page/page.html`.
pub const PAGE: &str = r##"<!doctype html>
<html lang="en">
<head>
<meta charset="utf-8">
<meta name="viewport" content="width=device-width, initial-scale=1">
<title>rackd watch</title>
<link rel="icon" href="data:,">
<link rel="stylesheet" href="/page.css">
<script src="/page.js" defer></script>
</head>
<body>
<header>
  <h1>rackd <span>watch</span></h1>
  <nav aria-label="Lines of the rack">
    <span id="lines"></span>
    <button id="all" type="button" data-line="all" hidden>All lines</button>
  </nav>
  <p id="source">waiting for the first answer of the watch</p>
  <p id="live" class="quiet"></p>
  <button id="pause" type="button">Pause</button>
</header>
<div id="banner" role="alert"></div>
<p id="announce" class="unseen" aria-live="polite"></p>
<main id="main">
  <section id="all-part" aria-labelledby="all-title">
    <h2 id="all-title">All lines of the rack</h2>
    <div class="scroll" tabindex="0" role="region" aria-labelledby="all-title"><table id="all-lines"></table></div>
  </section>
  <div id="left">
    <section id="who" aria-labelledby="who-title">
      <h2 id="who-title">Who may change which slave now</h2>
      <div class="scroll" tabindex="0" role="region" aria-labelledby="who-title"><table id="matrix"></table></div>
      <p id="fold"></p>
      <p id="answer"></p>
      <ul id="legend">
        <li><b>holds</b> only this master may change the slave</li>
        <li><b>may lock</b> nobody holds it, and this master may lock it</li>
        <li><b>–</b> another master holds it</li>
        <li><b>not listed</b> its list of lockers lacks the master</li>
        <li><b>⌀</b> the master may not read it</li>
        <li>Click a cell for its sentence, or use the arrow keys and Enter. Escape shows all slaves again.</li>
      </ul>
    </section>
    <section id="masters-part" aria-labelledby="masters-title">
      <h2 id="masters-title">Masters</h2>
      <div class="scroll" tabindex="0" role="region" aria-labelledby="masters-title">
        <table id="masters"></table>
      </div>
    </section>
  </div>
  <section id="why" aria-labelledby="why-title">
    <h2 id="why-title">Why was it refused</h2>
    <div id="reason"></div>
    <h3 id="refusals-title">Refusals <span class="soft">counted in the entries that this page received</span></h3>
    <div class="scroll" tabindex="0" role="region" aria-labelledby="refusals-title"><table id="refusals"></table></div>
    <h3 id="faults-title">Other faults <span class="soft">faults of the bus that are not refusals</span></h3>
    <div class="scroll" tabindex="0" role="region" aria-labelledby="faults-title"><table id="faults"></table></div>
  </section>
  <section id="slaves-part" aria-labelledby="slaves-title">
    <h2 id="slaves-title">Slaves</h2>
    <div class="scroll" tabindex="0" role="region" aria-labelledby="slaves-title"><table id="slaves"></table></div>
  </section>
  <section id="stream-part" aria-labelledby="stream-title">
    <h2 id="stream-title">Entries</h2>
    <form id="filters">
      <label>Kind
        <select id="f-kind">
          <option value="news">without routine</option>
          <option value="all">all</option>
          <option value="refused">refused</option>
          <option value="faults">faults</option>
          <option value="changes">changes of state or holder</option>
        </select>
      </label>
      <label>Master <select id="f-master"><option value="">each</option></select></label>
      <label>Slave <select id="f-slave"><option value="">each</option></select></label>
      <label>Text
        <input id="f-text" type="search" placeholder="NotHolder, Set_Prm .." autocomplete="off" spellcheck="false">
      </label>
      <button id="f-clear" type="reset">Clear</button>
    </form>
    <p id="shown"><span></span> <button id="newest" type="button" hidden>Show the newest</button></p>
    <div id="stream" tabindex="0" role="region" aria-labelledby="stream-title"></div>
  </section>
</main>
<footer id="foot"></footer>
<noscript>This page needs JavaScript.</noscript>
</body>
</html>
"##;
