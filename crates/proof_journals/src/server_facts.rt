//! What the plain server keeps, whoever calls it: meanings and lemmas, and no function. Tables stay tables, what each session
//! wrote fits them, and no two sessions hold what conflicts.
