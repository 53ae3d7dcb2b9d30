// What the edits of a packet are, and what any sequence of them keeps: the verdict, the accepted edits' bytes, and what was
// fresh. There is no code here: `edit` and `prefix` have the functions, and are proved to do what stands in specs/.
#![tactic(auto)]
